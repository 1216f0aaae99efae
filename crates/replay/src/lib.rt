// The replay format: a line and a session in, the printed bytes and the next session out. Every reply is the
// instrument's, the envelope's or the reader's own.

#![tactic(auto)]

use ask::{Part, Request};
use design::InstrumentDesign;
use envelope::EnvGen;
use instrument::Instrument;
use outcome::Refusal;
use patterns::Page;

mod ask;
mod blocks;
mod calls;
mod said;
mod steps;
mod ticks;

#[derive(Clone, Copy)]
pub struct Session {
    pub instrument: Instrument,
    pub env: EnvGen,
    // Whether a curve and an output are printed by their numbers, not their checksum.
    pub numbers: bool,
}

impl Session {
    // An instrument and an envelope of refused starts.
    pub fn new() -> Session {
        Session {
            instrument: Instrument::new(InstrumentDesign::default()).state,
            env: EnvGen::default(),
            numbers: false,
        }
    }

    // A state that is not well formed prints nothing of itself.
    fn show(&self, part: Part, page: &mut Page) {
        let s = &self.instrument;
        if !s.well_formed() {
            said::refused(page, Refusal::Malformed);
            return;
        }
        match part {
            Part::Voices => state_text::voices(page, s),
            Part::Copies => state_text::every_copy(page, s),
            Part::State => state_text::state(page, s),
        }
    }

    // Prints the answer to a line. One line prints at most 34,761 bytes, unless it prints numbers; what finds no room
    // is left out. A block wants at most 524,289 samples and 2,049 places of stereo.
    pub fn answer(
        &mut self,
        line: &[u8],
        samples: &mut [f32],
        stereo: &mut [f32],
        page: &mut Page,
    ) {
        let Some(request) = ask::read(line) else {
            page.put(b"(unread)\n", &[]);
            return;
        };
        match request {
            Request::Start(design) => self.start(design, page),
            Request::Env(call) => self.env_call(call, page),
            Request::Call(call) => self.call(call, page),
            Request::Query(query) => self.query(query, page),
            Request::Plan(plan) => self.plan(plan, samples, page),
            Request::Mix(mix) => self.mix(mix, samples, stereo, page),
            Request::Midi(from, count) => steps::steps(page, line, from, count),
            Request::Show(part) => self.show(part, page),
        }
    }
}
