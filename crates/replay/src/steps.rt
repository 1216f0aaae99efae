// The steps over a MIDI stream, one a line.

use crate::said;
use midi::Cursor;
use patterns::Page;

// No iterator: the outcome that ends the walk is told too, with its cursor.
#[tactic(auto, using(midi::proofs::Whole::inside, midi::proofs::Whole::shrinks))]
fn walk(page: &mut Page, stream: &[u8], from: Cursor) {
    let mut found = midi::step(stream, from);
    said::step(page, found);
    while let Ok(Some(_)) = found.reply {
        found = midi::step(stream, found.state);
        said::step(page, found);
    }
}

// The bytes that a text begins with, as many as there are. A request keeps their count and no slice, which would give
// every request the lifetime of its line.
fn bytes(line: &[u8]) -> [u8; 100] {
    let mut stream = [0; 100];
    let mut rest = line;
    for place in &mut stream {
        let Some((byte, behind)) = text::byte(rest) else {
            break;
        };
        *place = byte;
        rest = behind;
    }
    stream
}

// The steps over the bytes of a line that ends in `count` pairs of digits and a bracket.
pub fn steps(page: &mut Page, line: &[u8], from: Cursor, count: usize) {
    if 100 < count || line.len() <= 2 * count {
        return;
    }
    let stream = bytes(&line[line.len() - 2 * count - 1..]);
    walk(page, &stream[..count], from);
}
