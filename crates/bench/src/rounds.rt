// One call again and again, each on the state that the one before gave.

use crate::{build, sums};
use instrument::{Instrument, Report};
use midi::{Cursor, Event};
use outcome::{Outcome, Refusal};

// After each plan the block is closed by hand, so that the next plan may open one.
pub fn plans(start: Instrument, frames: usize, turns: usize, curve: &mut [f32]) -> Instrument {
    let mut o = build::answered(start);
    for _ in 0..turns {
        o = o.state.plan(frames, 1.0, 1.0, 0.0, curve);
        o.state.frames = 0;
    }
    o.state
}

// Before each mix the block is opened by hand.
pub fn mixes(
    start: Instrument,
    frames: usize,
    turns: usize,
    samples: &[f32],
    out: &mut [f32],
) -> Instrument {
    let nobody = Report {
        count: 0,
        ended: [0; 64],
    };
    let mut o = Outcome::answered(start, nobody);
    for _ in 0..turns {
        o.state.frames = frames;
        o = o.state.mix(samples, out);
    }
    o.state
}

fn told_event(sum: u64, event: Event) -> u64 {
    match event {
        Event::On(note, velocity) => kind(kind(sum, 1, u64::from(note)), 1, sums::bits(velocity)),
        Event::Off(note) => kind(sum, 2, u64::from(note)),
        Event::Pedal(down) => kind(sum, 3, u64::from(down)),
        Event::AllOff => kind(sum, 4, 0),
        Event::Bend(b) => kind(sum, 5, u64::from(b)),
        Event::Other => kind(sum, 6, 0),
    }
}

fn told(sum: u64, reply: Result<Option<Event>, Refusal>) -> u64 {
    match reply {
        Ok(Some(event)) => told_event(sum, event),
        Ok(None) => kind(sum, 7, 0),
        Err(refusal) => kind(sum, 8, u64::from(refusal.number())),
    }
}

fn kind(sum: u64, kind: u64, value: u64) -> u64 {
    sums::add(sums::add(sum, kind), value)
}

// Every event of a stream, to its end, in at most as many steps as bytes: behind a refusal each step tells it again.
// No iterator of events: the outcome that ends the walk is told too, and the next step needs its cursor.
fn stream(start: u64, bytes: &[u8]) -> u64 {
    let mut sum = start;
    let mut cursor = Cursor::default();
    for _ in bytes {
        let found = midi::step(bytes, cursor);
        sum = told(sum, found.reply);
        if let Ok(None) = found.reply {
            return sum;
        }
        cursor = found.state;
    }
    sum
}

pub fn streams(bytes: &[u8], turns: usize) -> u64 {
    let mut sum = 0;
    for _ in 0..turns {
        sum = stream(sum, bytes);
    }
    sum
}
