// What a line asks for. A design, an `on` and `(voices)` are read by `forms`, every other line by its pattern here.

use design::InstrumentDesign;
use forms::Form;
use midi::Cursor;
use patterns::sums::Source;
use patterns::{byte_of, fits, fits_one, float_of, word_of};

// Calls of the envelope that stands by itself.
#[derive(Clone, Copy)]
pub enum EnvCall {
    New {
        rate: u32,
        a: f32,
        d: f32,
        s: f32,
        r: f32,
    },
    On,
    Off,
    Kill,
    Ticks(u32),
}

// Calls of the instrument with neither curve nor samples.
#[derive(Clone, Copy)]
pub enum Call {
    On {
        note: u8,
        velocity: f32,
        built: bool,
    },
    Off(u8),
    Pedal(bool),
    Bend(f32),
    Brightness(f32),
    Release(u64),
    AllOff,
}

#[derive(Clone, Copy)]
pub enum Query {
    Active(u64),
    Count,
    Find(u8),
}

// How much memory a block is lent: what it wants, one place more, or one fewer.
#[derive(Clone, Copy)]
pub enum Lend {
    Exact,
    More,
    Fewer,
}

#[derive(Clone, Copy)]
pub struct Plan {
    pub frames: usize,
    pub lend: Lend,
    pub vibrato: f32,
    pub filter: f32,
    pub sine: f32,
}

#[derive(Clone, Copy)]
pub struct Mix {
    pub source: Source,
    pub seed: u32,
    pub samples: Lend,
    pub stereo: Lend,
}

// What is shown of a state: the table, every copy of every voice, or all that stands beside the table.
#[derive(Clone, Copy)]
pub enum Part {
    Voices,
    Copies,
    State,
}

#[derive(Clone, Copy)]
pub enum Request {
    Start(InstrumentDesign),
    Env(EnvCall),
    Call(Call),
    Query(Query),
    Plan(Plan),
    Mix(Mix),
    // The steps over the line's last bytes, so many.
    Midi(Cursor, usize),
    Show(Part),
}

// The replay format names it by a number.
impl From<u64> for Lend {
    fn from(n: u64) -> Lend {
        match n {
            0 => Lend::Exact,
            1 => Lend::More,
            _ => Lend::Fewer,
        }
    }
}

fn env_call_of(line: &[u8]) -> Option<EnvCall> {
    match line {
        b"(gate on)" => return Some(EnvCall::On),
        b"(gate off)" => return Some(EnvCall::Off),
        b"(gate kill)" => return Some(EnvCall::Kill),
        _ => {}
    }
    if let Some(n) = fits_one(line, b"(tick D)") {
        return Some(EnvCall::Ticks(word_of(n)));
    }
    let [rate, a, d, s, r] = fits::<5>(line, b"(env D W W W W)")?;
    Some(EnvCall::New {
        rate: word_of(rate),
        a: float_of(a),
        d: float_of(d),
        s: float_of(s),
        r: float_of(r),
    })
}

fn call_of(line: &[u8]) -> Option<Call> {
    if line == b"(alloff)".as_slice() {
        return Some(Call::AllOff);
    }
    if let Some(note) = fits_one(line, b"(off N)") {
        return Some(Call::Off(byte_of(note)));
    }
    if let Some(down) = fits_one(line, b"(pedal F)") {
        return Some(Call::Pedal(down == 1));
    }
    if let Some(factor) = fits_one(line, b"(bend W)") {
        return Some(Call::Bend(float_of(factor)));
    }
    if let Some(x) = fits_one(line, b"(bright W)") {
        return Some(Call::Brightness(float_of(x)));
    }
    let handle = fits_one(line, b"(release H)")?;
    Some(Call::Release(handle))
}

fn query_of(line: &[u8]) -> Option<Query> {
    if line == b"(count)".as_slice() {
        return Some(Query::Count);
    }
    if let Some(handle) = fits_one(line, b"(active H)") {
        return Some(Query::Active(handle));
    }
    let note = fits_one(line, b"(find N)")?;
    Some(Query::Find(byte_of(note)))
}

fn plan_of(line: &[u8]) -> Option<Plan> {
    let [frames, lend, vibrato, filter, sine] = fits::<5>(line, b"(plan D T W W W)")?;
    Some(Plan {
        frames: frames as usize,
        lend: Lend::from(lend),
        vibrato: float_of(vibrato),
        filter: float_of(filter),
        sine: float_of(sine),
    })
}

fn mix_of(line: &[u8]) -> Option<Mix> {
    let [source, seed, samples, stereo] = fits::<4>(line, b"(mix T D T T)")?;
    Some(Mix {
        source: Source::from(source),
        seed: word_of(seed),
        samples: Lend::from(samples),
        stereo: Lend::from(stereo),
    })
}

fn midi_of(line: &[u8]) -> Option<Request> {
    let [place, status, count] = fits::<3>(line, b"(midi D B S)")?;
    let cursor = Cursor {
        place: place as usize,
        status: byte_of(status),
    };
    Some(Request::Midi(cursor, count as usize))
}

fn other(line: &[u8]) -> Option<Request> {
    match line {
        b"(copies)" => Some(Request::Show(Part::Copies)),
        b"(state)" => Some(Request::Show(Part::State)),
        _ => env_call_of(line)
            .map(Request::Env)
            .or_else(|| call_of(line).map(Request::Call))
            .or_else(|| query_of(line).map(Request::Query))
            .or_else(|| plan_of(line).map(Request::Plan))
            .or_else(|| mix_of(line).map(Request::Mix))
            .or_else(|| midi_of(line)),
    }
}

pub fn read(line: &[u8]) -> Option<Request> {
    if 256 < line.len() {
        return None;
    }
    match forms::read(line) {
        Some(Form::Design(f)) => Some(Request::Start(InstrumentDesign::from(f))),
        Some(Form::On(f)) => Some(Request::Call(Call::On {
            note: f.note,
            velocity: float32::from_bits(f.velocity),
            built: f.built,
        })),
        Some(Form::Voices) => Some(Request::Show(Part::Voices)),
        None => other(line),
    }
}
