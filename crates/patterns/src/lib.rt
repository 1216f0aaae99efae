// Lines by patterns: what a line holds, and what is printed. A capital letter of a pattern stands for a number, any other
// byte for itself.

#![tactic(auto)]

pub use page::Page;

mod page;
pub mod sums;

// The largest number that the letter of a decimal takes: a flag, one of three, a note, a handle; any other has 32 bits.
// Letters and no enum: they are the format's own text, and a pattern stands in the code as its line is printed.
fn most(letter: u8) -> u64 {
    match letter {
        b'F' => 1,
        b'T' => 2,
        b'N' => 255,
        b'H' => u64::MAX,
        _ => 0xFFFF_FFFF,
    }
}

// How many pairs of digits the text begins with, of at most 100, and what is behind them.
fn pairs(line: &[u8]) -> (u64, &[u8]) {
    let mut rest = line;
    for count in 0..100 {
        let Some((_, behind)) = text::byte(rest) else {
            return (count, rest);
        };
        rest = behind;
    }
    (100, rest)
}

// How many pairs a stream has: a dash stands for none.
fn stream(line: &[u8]) -> Option<(u64, &[u8])> {
    match pairs(line) {
        (0, _) => Some((0, line.strip_prefix(b"-")?)),
        some => Some(some),
    }
}

// By the letter, as `most`: `W` is a word, `B` a byte in two digits, `S` a stream, and any other letter a decimal.
fn number(line: &[u8], letter: u8) -> Option<(u64, &[u8])> {
    match letter {
        b'W' => text::word(line).map(|(word, rest)| (u64::from(word), rest)),
        b'B' => text::byte(line).map(|(byte, rest)| (u64::from(byte), rest)),
        b'S' => stream(line),
        _ => text::decimal(line, most(letter)),
    }
}

// The first N numbers of a line that is the pattern, in their order; where it has fewer letters, zeros behind them.
pub fn fits<const N: usize>(line: &[u8], pattern: &[u8]) -> Option<[u64; N]> {
    let mut values = [0; N];
    let mut places = values.iter_mut();
    let mut rest = line;
    for p in pattern {
        if !p.is_ascii_uppercase() {
            rest = rest.strip_prefix(&[*p])?;
            continue;
        }
        let (value, behind) = number(rest, *p)?;
        rest = behind;
        if let Some(place) = places.next() {
            *place = value;
        }
    }
    if rest.is_empty() { Some(values) } else { None }
}

// The number of a line that is the pattern, which has one letter.
pub fn fits_one(line: &[u8], pattern: &[u8]) -> Option<u64> {
    let [n] = fits::<1>(line, pattern)?;
    Some(n)
}

// Numbers of a form at their width. The letter asked for the bound, so the mask takes nothing away; without it no cast is
// proved to keep the number.

pub fn byte_of(n: u64) -> u8 {
    (n & 0xFF) as u8
}

pub fn word_of(n: u64) -> u32 {
    (n & 0xFFFF_FFFF) as u32
}

pub fn float_of(n: u64) -> f32 {
    float32::from_bits(word_of(n))
}

pub fn bits(x: f32) -> u64 {
    u64::from(float32::to_bits(x))
}
