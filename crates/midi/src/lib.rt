// A reader of MIDI 1.0 bytes: from a cursor in a stream to the next event.

#![tactic(auto)]

ghost use Rattle.std.specs.Prelude.{◌≡◌};
ghost use Rattle.midi.specs.Bytes.{may_run};
ghost use Rattle.midi.specs.Messages.{note_on_event, control_event, event, message};
ghost use Rattle.midi.specs.Steps.{first_data, data_byte, fed, at_end, stepped};
ghost use Rattle.midi.specs.Streams.{Progress, RealTimeIgnored, RoundTrip, EndLast, RefusalKeeps, Limits};

use outcome::{Outcome, Refusal};
use std::ops::ControlFlow;

// A place in a stream, and the running status there. 0 stands for none, as in the C interface and where a cursor is
// printed.
#[derive(Clone, Copy, Debug, Default, PartialEq, Eq)]
pub struct Cursor {
    pub place: usize,
    pub status: u8,
}

#[derive(Clone, Copy, Debug, PartialEq)]
pub enum Event {
    // A note and its velocity, above 0 and at most 1.
    On(u8, f32),
    Off(u8),
    // True for down.
    Pedal(bool),
    AllOff,
    // 0 to 16,383, with 8,192 for the centre.
    Bend(u16),
    Other,
}

// How much of a message was read: three states, so no Option. Under running status a message has no status byte of its own.
#[derive(Clone, Copy)]
enum Part {
    Nothing,
    Status,
    First(u8),
}

// What the reader knows between two bytes.
#[derive(Clone, Copy)]
struct Scan {
    pub status: u8,
    pub part: Part,
}

// Whether a cursor may hold `status`.
fn may_run(status: u8) -> bool
    ensures { result ≡ may_run status }
{
    matches!(status, 0 | 0x80..=0xEF)
}

// An on at velocity 0 is an off.
fn note_on_event(note: u8, velocity: u8) -> Event
    ensures { result ≡ note_on_event note velocity }
{
    if velocity == 0 {
        Event::Off(note)
    } else {
        Event::On(note, velocity as f32 / 127.0)
    }
}

// By number: MIDI numbers its controllers.
fn control_event(controller: u8, value: u8) -> Event
    ensures { result ≡ control_event controller value }
{
    match controller {
        64 => Event::Pedal(64 <= value),
        123..=127 => Event::AllOff,
        _ => Event::Other,
    }
}

// The event of a whole message. One of a single data byte has any `second`. The last kind is E.
fn message_event(status: u8, first: u8, second: u8) -> Event
    ensures { result ≡ event (message status first second) }
{
    match status / 16 {
        0x8 => Event::Off(first),
        0x9 => note_on_event(first, second),
        0xB => control_event(first, second),
        0xA | 0xC | 0xD => Event::Other,
        _ => Event::Bend(first as u16 + 128 * (second as u16)),
    }
}

// The first data byte of a message, which is the last of a C or a D.
fn feed_first(status: u8, byte: u8) -> ControlFlow<Event, Scan>
    ensures { result ≡ first_data status byte }
{
    match status {
        0xC0..=0xDF => ControlFlow::Break(message_event(status, byte, 0)),
        _ => ControlFlow::Continue(Scan {
            status,
            part: Part::First(byte),
        }),
    }
}

// A data byte under running status.
fn feed_data(status: u8, part: Part, byte: u8) -> ControlFlow<Event, Scan>
    ensures { result ≡ data_byte status part byte }
{
    match part {
        Part::Nothing | Part::Status => feed_first(status, byte),
        Part::First(first) => ControlFlow::Break(message_event(status, first, byte)),
    }
}

// Any byte: data, as most are, status, system common or real-time. A message that it ends breaks off with its event.
fn feed(scan: Scan, byte: u8) -> ControlFlow<Event, Scan>
    ensures { result ≡ fed scan byte }
{
    match byte {
        0..=0x7F => if scan.status == 0 {
            ControlFlow::Continue(scan)
        } else {
            feed_data(scan.status, scan.part, byte)
        },
        0x80..=0xEF => ControlFlow::Continue(Scan {
            status: byte,
            part: Part::Status,
        }),
        0xF0..=0xF7 => ControlFlow::Continue(Scan {
            status: 0,
            part: Part::Nothing,
        }),
        0xF8..=0xFF => ControlFlow::Continue(scan),
    }
}

// The stream's end: inside a message it is a refusal, which gives `from` back.
fn finish(from: Cursor, scan: Scan, place: usize) -> Outcome<Cursor, Option<Event>>
    ensures { result ≡ at_end from scan.part place scan.status }
{
    match scan.part {
        Part::Nothing => {
            let status = scan.status;
            Outcome::answered(Cursor { place, status }, None)
        }
        Part::Status | Part::First(_) => Outcome::refused(from, Refusal::CutShort),
    }
}

// The next event from `cursor` on, none at the stream's end, or a refusal.
pub fn step(stream: &[u8], cursor: Cursor) -> Outcome<Cursor, Option<Event>>
    ensures { result ≡ stepped stream.now cursor }
{
    let status = cursor.status;
    if stream.len() < cursor.place || !may_run(status) {
        return Outcome::refused(cursor, Refusal::NoSuchPlace);
    }
    let mut scan = Scan {
        status,
        part: Part::Nothing,
    };
    let left = &stream[cursor.place..];
    for (passed, byte) in left.iter().enumerate() {
        match feed(scan, *byte) {
            ControlFlow::Continue(next) => scan = next,
            ControlFlow::Break(event) => {
                let behind = Cursor {
                    place: cursor.place + passed + 1,
                    status: scan.status,
                };
                return Outcome::answered(behind, Some(event));
            }
        }
    }
    finish(cursor, scan, stream.len())
}

// The theorems on whole streams, each proved in its own proof file.

#[tactic(auto, using(crate::proofs::Whole::moves, crate::proofs::Whole::ends))]
pub fn progress()
    ensures { Progress }
{}

#[tactic(auto, using(crate::proofs::Whole::ignored))]
pub fn real_time_ignored()
    ensures { RealTimeIgnored }
{}

#[tactic(auto, using(crate::proofs::Encoded::read_back))]
pub fn round_trip()
    ensures { RoundTrip }
{}

#[tactic(auto, using(crate::proofs::Whole::at_length))]
pub fn end_last()
    ensures { EndLast }
{}

#[tactic(auto, using(crate::proofs::Whole::kept))]
pub fn refusal_keeps()
    ensures { RefusalKeeps }
{}

#[tactic(auto, using(crate::proofs::Ranges::limited))]
pub fn values_limited()
    ensures { Limits }
{}
