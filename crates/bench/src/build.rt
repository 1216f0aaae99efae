// States to measure on, made by calls.

use design::{Adsr, InstrumentDesign, Modulation, PlayMode};
use instrument::{Instrument, Reply};
use outcome::Outcome;

// How large a state is: the design's max and unison, and how many voices are struck before and after an all-off.
#[derive(Clone, Copy)]
pub struct Size {
    pub max: u32,
    pub unison: u32,
    pub first: usize,
    pub second: usize,
}

// Voices reach their sustain in two frames, and a release lasts longer than any measurement.
fn design(size: Size, mode: PlayMode) -> InstrumentDesign {
    InstrumentDesign {
        sample_rate: 48_000,
        max_voices: size.max,
        mode,
        unison: size.unison,
        unison_width: 0.5,
        amp: Adsr {
            a: 0.0,
            d: 0.0,
            s: 0.5,
            r: 1_000_000.0,
        },
        glide: 0.000_001,
        modulation: Modulation::default(),
    }
}

fn start(size: Size, mode: PlayMode) -> Instrument {
    Instrument::new(design(size, mode)).state
}

// The notes go round from 36 to 96.
pub fn next_note(note: u8) -> u8 {
    if note < 96 { note + 1 } else { 36 }
}

// A state as a call would have given it back.
pub fn answered(state: Instrument) -> Outcome<Instrument, Reply> {
    Outcome::answered(state, Reply::Done)
}

pub fn on(s: Instrument, note: u8) -> Instrument {
    s.note_on(note, 0.75, true).state
}

pub fn all_off(s: Instrument) -> Instrument {
    s.all_notes_off().state
}

// A change of a state again and again, told its turn's note.
fn rounds<F: Fn(Instrument, u8) -> Instrument>(start: Instrument, n: usize, change: F) -> Instrument
    requires { F.IsAlwaysCallable change }
{
    let mut s = start;
    let mut note = 36;
    for _ in 0..n {
        s = change(s, note);
        note = next_note(note);
    }
    s
}

fn strikes(s: Instrument, n: usize) -> Instrument {
    rounds(s, n, on)
}

// Each strikes a voice, gives it another note and releases it.
fn glides(s: Instrument, n: usize) -> Instrument {
    rounds(s, n, |s, note| all_off(on(on(s, note), 97)))
}

fn open(s: Instrument, curve: &mut [f32]) -> Instrument {
    s.plan(2, 1.0, 1.0, 0.0, curve).state
}

fn close(s: Instrument, samples: &[f32], out: &mut [f32]) -> Instrument {
    s.mix(samples, out).state
}

// A block of 2 frames. The curve serves as the samples.
fn block(s: Instrument, lent: &mut [f32], four: &mut [f32]) -> Instrument {
    let t = open(s, lent);
    close(t, lent, four)
}

// A Poly table: `first` voices in their release and `second` in their sustain. `half` has 2 × copies places for each
// of the first voices, `whole` for every voice.
pub fn table(size: Size, half: &mut [f32], whole: &mut [f32], four: &mut [f32]) -> Instrument {
    let s = strikes(start(size, PlayMode::Poly), size.first);
    let t = all_off(block(s, half, four));
    block(strikes(t, size.second), whole, four)
}

// A Mono table of `first` + `second` voices: each was struck, took another note and was released while it glides there.
pub fn gliding(size: Size) -> Instrument {
    let s = glides(start(size, PlayMode::Mono { legato: false }), size.first);
    glides(s, size.second)
}
