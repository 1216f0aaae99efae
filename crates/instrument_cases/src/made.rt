// States made by hand: each line changes one thing, whatever state that gives.

use envelope::Stage;
use instrument::Instrument;
use note::Note;
use patterns::{fits, fits_one, float_of, word_of};
use std::array;
use voice::Voice;

// The next handle, the frames of the open block, the numbers of voices and of held notes.
fn counted(s: &mut Instrument, line: &[u8]) -> bool {
    if let Some(n) = fits_one(line, b"(next H)") {
        s.next_handle = n;
    } else if let Some(n) = fits_one(line, b"(frames D)") {
        s.frames = n as usize;
    } else if let Some(n) = fits_one(line, b"(table D)") {
        s.table.count = n as usize;
    } else if let Some(n) = fits_one(line, b"(held D)") {
        s.held.count = n as usize;
    } else {
        return false;
    }
    true
}

// The held notes all 60, or from 0 to 255.
fn holding(s: &mut Instrument, line: &[u8]) -> bool {
    match line {
        b"(same)" => s.held.notes = [Note(60); 256],
        b"(each)" => s.held.notes = array::from_fn(|n| Note(n as u8)),
        _ => return false,
    }
    true
}

fn redesigned(s: &mut Instrument, line: &[u8]) -> bool {
    if let Some(n) = fits_one(line, b"(max D)") {
        s.design.max_voices = word_of(n);
    } else if let Some(n) = fits_one(line, b"(rate D)") {
        s.design.sample_rate = word_of(n);
    } else if let Some(n) = fits_one(line, b"(glide W)") {
        s.design.glide = float_of(n);
    } else {
        return false;
    }
    true
}

// A voice more of note 60, which sounds or releases.
fn struck(s: &mut Instrument, line: &[u8]) -> bool {
    let Some(numbers) = fits::<2>(line, b"(voice H F)") else {
        return false;
    };
    let [handle, releases] = numbers;
    let mut v = voice::new_voice(s.design, 1.0, 1.0, handle, 60, 1.0);
    if releases == 1 {
        v.env = v.env.gate_off();
        v.releasing = true;
    }
    if s.table.count < 64 {
        s.table = s.table.push(v);
    }
    true
}

fn last<C: FnOnce(&mut Voice)>(s: &mut Instrument, change: C)
    requires { C.IsAlwaysCallable change }
{
    let shown = s.table.count;
    let live = s.table.voices.get_mut(..shown);
    if let Some(v) = live.and_then(|live| live.last_mut()) {
        change(v);
    }
}

// Of the last voice the flag `releasing`, the stage or the number of copies.
fn last_changed(s: &mut Instrument, line: &[u8]) -> bool {
    if let Some(on) = fits_one(line, b"(flag F)") {
        last(s, |v| v.releasing = on == 1);
    } else if line == b"(idle)".as_slice() {
        last(s, |v| v.env.stage = Stage::Idle);
    } else if let Some(n) = fits_one(line, b"(unison D)") {
        last(s, |v| v.copy_count = n as usize);
    } else {
        return false;
    }
    true
}

// Makes the change that a line asks for, and tells whether it asked for one.
pub fn made(s: &mut Instrument, line: &[u8]) -> bool {
    counted(s, line)
        || holding(s, line)
        || redesigned(s, line)
        || struck(s, line)
        || last_changed(s, line)
}
