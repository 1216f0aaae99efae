// Sums over what was computed. A step is 3 × sum + x, so that every term stays in it.

use instrument::Instrument;
use voice::Voice;

pub fn add(sum: u64, x: u64) -> u64 {
    sum.wrapping_mul(3).wrapping_add(x)
}

pub fn bits(x: f32) -> u64 {
    u64::from(float32::to_bits(x))
}

// The patterns of lent numbers.
pub fn floats(start: u64, xs: &[f32]) -> u64 {
    xs.iter().fold(start, |sum, x| add(sum, bits(*x)))
}

fn voice(sum: u64, v: &Voice) -> u64 {
    let c = &v.copies[0];
    [
        v.handle,
        u64::from(v.note.0),
        u64::from(v.releasing),
        u64::from(v.sustained),
        bits(v.env.level),
        bits(c.pitch),
        bits(c.bend),
    ]
    .iter()
    .fold(sum, |sum, x| add(sum, *x))
}

// The voices of a state, each with its first copy.
pub fn table(s: &Instrument) -> u64 {
    let voices = s.table.live();
    voices.iter().fold(voices.len() as u64, voice)
}
