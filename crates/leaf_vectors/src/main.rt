// Answers lines on notes, envelopes, copies and designs, as the Rust answered them (oracle/README.md).
// A line in is a letter and seven words, 65 bytes; a line out is a letter and eight words, 74 bytes.

#![tactic(auto)]

mod words;

use design::{Adsr, InstrumentDesign, Modulation, PlayMode};
use envelope::EnvGen;
use outcome::Refusal;
use std::io;
use std::io::{ErrorKind, Read};
use stream::UnisonCopy;
use words::{Line, say};

// The words of an answer.
type Words = [u32; 8];

// One envelope, one copy, and the settings that a line on designs takes over.
#[derive(Drop)]
struct Leaf {
    env: EnvGen,
    copy: UnisonCopy,
    amp: Adsr,
    modulation: Modulation,
}

// N: the frequency of a note.
fn note_line(line: &Line) -> Words {
    alone(float32::to_bits(note::Note(line.byte(0)).freq()))
}

// X: what float32 makes of two floats.
fn float_line(line: &Line) -> Words {
    let a = line.float(0);
    let b = line.float(1);
    [
        float32::to_bits(float32::fract(a)),
        u32::from(float32::total_below(a, b)),
        float32::to_bits(float32::max(a, b)),
        float32::to_bits(float32::min(a, b)),
        float32::to_bits(float32::clamp(a, 0.0, 1.0)),
        float32::to_bits(float32::clamp(a, -1.0, 1.0)),
        u32::from(float32::is_nan(a)),
        u32::from(float32::is_finite(a)),
    ]
}

fn alone(word: u32) -> Words {
    [word, 0, 0, 0, 0, 0, 0, 0]
}

// The number of a refusal, 0 where nothing is refused: the lines hold numbers.
fn refusal_number(reply: Result<(), Refusal>) -> u32 {
    match reply {
        Ok(()) => 0,
        Err(reason) => u32::from(reason.number()),
    }
}

// A sum over words that tells their order.
fn mixed(sum: u32, x: u32) -> u32 {
    sum.wrapping_mul(16_777_619).wrapping_add(x)
}

impl Leaf {
    fn new() -> Leaf {
        Leaf {
            env: EnvGen::default(),
            copy: UnisonCopy::new(0, 1, 0.0),
            amp: Adsr::default(),
            modulation: Modulation::default(),
        }
    }

    // The first word is a reply's number or a sum.
    fn env_words(&self, first: u32) -> Words {
        let e = self.env;
        [
            first,
            e.stage as u32,
            float32::to_bits(e.level()),
            float32::to_bits(e.rel_from),
            u32::from(e.faded()),
            u32::from(e.active()),
            0,
            0,
        ]
    }

    // The last two words tell whether a cutoff was set, and which.
    fn copy_words(&self) -> Words {
        let c = self.copy;
        let (set, cutoff) = match c.cutoff {
            None => (0, 0),
            Some(x) => (1, float32::to_bits(x)),
        };
        [
            float32::to_bits(c.l),
            float32::to_bits(c.r),
            float32::to_bits(c.pitch),
            float32::to_bits(c.pitch_target),
            float32::to_bits(c.glide),
            float32::to_bits(c.bend),
            set,
            cutoff,
        ]
    }

    // E: a new envelope of a, d, s, r and a rate.
    fn env_line(&mut self, line: &Line) -> Words {
        let amp = Adsr {
            a: line.float(0),
            d: line.float(1),
            s: line.float(2),
            r: line.float(3),
        };
        let new = EnvGen::new(amp.a, amp.d, amp.s, amp.r, line.word(4));
        self.env = new.state;
        self.amp = amp;
        self.env_words(refusal_number(new.reply))
    }

    // G: gate_on, gate_off or kill, by the number that stands in the line.
    fn gate_line(&mut self, line: &Line) -> Words {
        self.env = match line.word(0) {
            0 => self.env.gate_on(),
            1 => self.env.gate_off(),
            _ => self.env.kill(),
        };
        self.env_words(0)
    }

    // T: that many ticks.
    fn tick_line(&mut self, line: &Line) -> Words {
        let mut sum = 0;
        for _ in 0..line.word(0) {
            self.env = self.env.tick();
            sum = mixed(sum, float32::to_bits(self.env.level));
        }
        self.env_words(sum)
    }

    fn copied(&mut self, copy: UnisonCopy) -> Words {
        self.copy = copy;
        self.copy_words()
    }

    // C: copy k of n at a width, under a bend and a brightness.
    fn copy_line(&mut self, line: &Line) -> Words {
        let copy = UnisonCopy::new(line.byte(0), line.byte(1), line.float(2));
        self.copied(copy.catch_up(line.float(3), line.float(4)))
    }

    // L: glide_block of that many frames, 1,024 at most: of more, nothing.
    fn glide_line(&mut self, rt: &impl Print, line: &Line) -> io::Result<Words> {
        let mut room = [0.0; 1024];
        if let Some(curve) = room.get_mut(..line.word(0) as usize) {
            self.copy = self.copy.glide_block(curve);
            say_curve(rt, curve)?;
        }
        Ok(self.copy_words())
    }

    // M: whether six settings modulate.
    fn modulation_line(&mut self, line: &Line) -> Words {
        self.modulation = Modulation {
            vibrato_rate: line.float(0),
            vibrato_cents: line.float(1),
            tremolo_rate: line.float(2),
            tremolo_depth: line.float(3),
            filter_rate: line.float(4),
            filter_octaves: line.float(5),
        };
        alone(u32::from(self.modulation.is_active()))
    }

    // D: whether a design of a rate, max, unison, width and glide is accepted, with the last amp and modulation.
    fn design_line(&self, line: &Line) -> Words {
        let d = InstrumentDesign {
            sample_rate: line.word(0),
            max_voices: line.word(1),
            mode: PlayMode::Poly,
            unison: line.word(2),
            unison_width: line.float(3),
            amp: self.amp,
            glide: line.float(4),
            modulation: self.modulation,
        };
        [refusal_number(d.accepted()), d.copies(), 0, 0, 0, 0, 0, 0]
    }

    // The answer to a line; none to a letter that stands for nothing.
    fn answer(&mut self, rt: &impl Print, line: &Line) -> io::Result<()> {
        let words = match line.letter {
            b'N' => note_line(line),
            b'X' => float_line(line),
            b'E' => self.env_line(line),
            b'G' => self.gate_line(line),
            b'T' => self.tick_line(line),
            b'C' => self.copy_line(line),
            b'P' => self.copied(self.copy.glide_pitch(line.float(0), line.float(1))),
            b'B' => self.copied(self.copy.set_bend(line.float(0))),
            b'F' => self.copied(self.copy.set_cutoff(line.float(0))),
            b'L' => self.glide_line(rt, line)?,
            b'M' => self.modulation_line(line),
            b'D' => self.design_line(line),
            _ => return Ok(()),
        };
        say(rt, line.letter, words)
    }
}

// Up to eight numbers of a curve, and 0 behind its end.
fn say_eight(rt: &impl Print, part: &[f32]) -> io::Result<()> {
    let mut words = [0; 8];
    for (word, x) in words.iter_mut().zip(part) {
        *word = float32::to_bits(*x);
    }
    say(rt, b'l', words)
}

fn say_curve(rt: &impl Print, curve: &[f32]) -> io::Result<()> {
    for part in curve.chunks(8) {
        say_eight(rt, part)?;
    }
    Ok(())
}

// Reads a line and answers it; a short one ends the run.
fn turn(rt: &impl Print, input: &mut impl Read, leaf: &mut Leaf) -> io::Result<bool> {
    let mut line = [0; 65];
    if let Err(e) = input.read_exact(&mut line) {
        if e.kind() == ErrorKind::UnexpectedEof {
            return Ok(false);
        }
        return Err(e);
    }
    leaf.answer(rt, &Line::read(&line))?;
    Ok(true)
}

// A proved loop has to end, and nothing says that the input does: it counts up to what no run reaches.
fn main(rt: HostRuntime) -> io::Result<()> {
    let mut input = rt.stdin();
    let mut leaf = Leaf::new();
    for _ in 0..u64::MAX {
        if !turn(&rt, &mut input, &mut leaf)? {
            break;
        }
    }
    Ok(())
}
