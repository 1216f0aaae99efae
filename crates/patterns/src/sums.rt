// Checksums, the sample source, and the mark in lent places.

// Where a checksum begins.
pub const BASIS: u64 = 0xCBF2_9CE4_8422_2325;

const PRIME: u64 = 0x100_0000_01B3;

// Four bytes, least significant first.
pub fn with_float(h: u64, x: f32) -> u64 {
    let bytes = float32::to_bits(x).to_le_bytes();
    bytes
        .iter()
        .fold(h, |h, b| (h ^ u64::from(*b)).wrapping_mul(PRIME))
}

// FNV-1a over the numbers.
pub fn sum(xs: &[f32]) -> u64 {
    xs.iter().fold(BASIS, |h, x| with_float(h, *x))
}

// What a sample is made of: any pattern, a float between -1 and 1, or nothing.
#[derive(Clone, Copy)]
pub enum Source {
    Patterns,
    WithinOne,
    Zeros,
}

// The replay format names it by a number.
impl From<u64> for Source {
    fn from(n: u64) -> Source {
        match n {
            0 => Source::Patterns,
            1 => Source::WithinOne,
            _ => Source::Zeros,
        }
    }
}

// Both are floats exactly, and so is their difference.
fn within_one(x: u32) -> f32 {
    (std::num::nearest_u32_to_f32(x / 256) - 8_388_608.0) / 8_388_608.0
}

impl Source {
    fn sample(self, x: u32) -> f32 {
        match self {
            Source::Patterns => float32::from_bits(x),
            Source::WithinOne => within_one(x),
            Source::Zeros => 0.0,
        }
    }
}

fn step(x: u32) -> u32 {
    x.wrapping_mul(1_664_525).wrapping_add(1_013_904_223)
}

// The source's numbers from `seed` on.
pub fn fill(samples: &mut [f32], source: Source, seed: u32) {
    let mut x = seed;
    for sample in samples {
        x = step(x);
        *sample = source.sample(x);
    }
}

const MARK: u32 = 0x1234_5678;

pub fn mark(places: &mut [f32]) {
    places.fill(float32::from_bits(MARK));
}

// Whether every place still has the mark.
pub fn is_marked(places: &[f32]) -> bool {
    places.iter().all(|x| float32::to_bits(*x) == MARK)
}
