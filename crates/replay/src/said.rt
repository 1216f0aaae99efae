// What is printed of a reply.

use instrument::Reply;
use midi::{Cursor, Event};
use outcome::{Outcome, Refusal};
use patterns::{Page, bits};
use std::num::NonZeroU64;

pub fn refused(page: &mut Page, refusal: Refusal) {
    page.put(b"(refused D)\n", &[u64::from(refusal.number())]);
}

pub fn done(page: &mut Page) {
    page.put(b"(done)\n", &[]);
}

// Of an instrument or an envelope.
pub fn start(page: &mut Page, reply: Result<(), Refusal>) {
    match reply {
        Ok(()) => page.put(b"(ready)\n", &[]),
        Err(refusal) => refused(page, refusal),
    }
}

// As `script`, whose texts have a contract; here a page gathers them.
fn accepted(page: &mut Page, reply: Reply) {
    match reply {
        Reply::Started {
            handle,
            killed,
            taken,
        } => {
            let numbers = [
                handle,
                killed.map_or(0, NonZeroU64::get),
                taken.map_or(0, NonZeroU64::get),
            ];
            page.put(b"(started D D D)\n", &numbers)
        }
        Reply::Silent(handle) => page.put(b"(silent D)\n", &[handle]),
        Reply::Kept(handle) => page.put(b"(kept D)\n", &[handle]),
        Reply::Off(found) => page.put(b"(off D)\n", &[u64::from(found)]),
        Reply::Released(found) => page.put(b"(released D)\n", &[u64::from(found)]),
        Reply::Done | Reply::Planned => done(page),
    }
}

pub fn reply(page: &mut Page, reply: Result<Reply, Refusal>) {
    match reply {
        Ok(reply) => accepted(page, reply),
        Err(refusal) => refused(page, refusal),
    }
}

// Of a query: its pattern with a number.
pub fn answer(page: &mut Page, pattern: &[u8], answer: Result<u64, Refusal>) {
    match answer {
        Ok(n) => page.put(pattern, &[n]),
        Err(refusal) => refused(page, refusal),
    }
}

// As `midi_cases`, which prints them at once; here a page gathers them.
fn event(page: &mut Page, event: Event) {
    match event {
        Event::On(note, velocity) => page.put(b"(on D W)\n", &[u64::from(note), bits(velocity)]),
        Event::Off(note) => page.put(b"(off D)\n", &[u64::from(note)]),
        Event::Pedal(down) => page.put(b"(pedal D)\n", &[u64::from(down)]),
        Event::AllOff => page.put(b"(alloff)\n", &[]),
        Event::Bend(value) => page.put(b"(bend D)\n", &[u64::from(value)]),
        Event::Other => page.put(b"(other)\n", &[]),
    }
}

// Where the reader ends it prints its cursor.
pub fn step(page: &mut Page, found: Outcome<Cursor, Option<Event>>) {
    let place = found.state.place as u64;
    let status = u64::from(found.state.status);
    match found.reply {
        Ok(Some(e)) => event(page, e),
        Ok(None) => page.put(b"(end D B)\n", &[place, status]),
        Err(refusal) => {
            let number = u64::from(refusal.number());
            page.put(b"(refused D D B)\n", &[number, place, status])
        }
    }
}
