// Calls of the instrument with neither curve nor samples, and its queries.

use crate::ask::{Call, Query};
use crate::{Session, said};
use design::InstrumentDesign;
use instrument::{Instrument, Reply};
use outcome::Outcome;
use patterns::Page;

fn called(s: Instrument, call: Call) -> Outcome<Instrument, Reply> {
    match call {
        Call::On {
            note,
            velocity,
            built,
        } => s.note_on(note, velocity, built),
        Call::Off(note) => s.note_off(note),
        Call::Pedal(down) => s.set_sustain(down),
        Call::Bend(factor) => s.set_bend(factor),
        Call::Brightness(x) => s.set_brightness(x),
        Call::Release(handle) => s.release(handle),
        Call::AllOff => s.all_notes_off(),
    }
}

impl Session {
    pub fn start(&mut self, design: InstrumentDesign, page: &mut Page) {
        let new = Instrument::new(design);
        self.instrument = new.state;
        said::start(page, new.reply);
    }

    pub fn call(&mut self, call: Call, page: &mut Page) {
        let o = called(self.instrument, call);
        self.instrument = o.state;
        said::reply(page, o.reply);
    }

    pub fn query(&self, query: Query, page: &mut Page) {
        let s = self.instrument;
        match query {
            Query::Active(handle) => {
                said::answer(page, b"(active D)\n", s.is_active(handle).map(u64::from))
            }
            Query::Count => {
                said::answer(page, b"(count D)\n", s.active_voices().map(|n| n as u64))
            }
            Query::Find(note) => {
                let found = s.voice_of(note).map(|handle| u64::from(handle.is_some()));
                said::answer(page, b"(found D)\n", found)
            }
        }
    }
}
