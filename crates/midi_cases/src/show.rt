// Events and ends as text, one a line.

use midi::{Cursor, Event};
use outcome::Outcome;
use std::io;

pub fn show_event(rt: &impl Print, event: Event) -> io::Result<()> {
    match event {
        Event::On(note, velocity) => println!(rt; "(on {note} {:08X})", float32::to_bits(velocity)),
        Event::Off(note) => println!(rt; "(off {note})"),
        Event::Pedal(down) => println!(rt; "(pedal {})", u8::from(down)),
        Event::AllOff => println!(rt; "(alloff)"),
        Event::Bend(value) => println!(rt; "(bend {value})"),
        Event::Other => println!(rt; "(other)"),
    }
}

// What ended a reading, the stream's end or a refusal, and where its cursor stands.
pub fn show_end(rt: &impl Print, last: Outcome<Cursor, Option<Event>>) -> io::Result<()> {
    let Cursor { place, status } = last.state;
    match last.reply {
        Ok(_) => println!(rt; "(end {place} {status:02X})"),
        Err(refusal) => println!(rt; "(refused {} {place} {status:02X})", refusal.number()),
    }
}
