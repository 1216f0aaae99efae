// Reads lines `(midi place status hex)` and prints each step over that stream, one a line.

#![tactic(auto)]

use lines::Line;
use midi::Cursor;
use std::io;

mod parse;
mod show;

// No iterator: the outcome that ends the walk is told too, with its cursor.
#[tactic(auto, using(midi::proofs::Whole::inside, midi::proofs::Whole::shrinks))]
fn steps(rt: &impl Print, stream: &[u8], from: Cursor) -> io::Result<()> {
    let mut last = midi::step(stream, from);
    while let Ok(Some(event)) = last.reply {
        show::show_event(rt, event)?;
        last = midi::step(stream, last.state);
    }
    show::show_end(rt, last)
}

fn end_line(rt: &impl Print, line: &[u8]) -> io::Result<()> {
    let mut room = [0; 100];
    match parse::parse_line(line, &mut room) {
        Some((cursor, stream)) => steps(rt, stream, cursor),
        None => rt.write_all(b"(unread)\n"),
    }
}

fn main(rt: HostRuntime) -> io::Result<()> {
    let mut buffer = [0; 4096];
    let mut line = Line::<257>::new();
    lines::blocks(&mut rt.stdin(), &mut buffer, |block| {
        line.take(block, |text| end_line(&rt, text))
    })?;
    line.finish(|text| end_line(&rt, text))
}
