// The methods of Rust's f32 that the instrument uses, as functions that take every float.
// Each equals a definition over IEEE 754's operations; where Rust leaves a sign open, the definition fixes it.

#![tactic(auto)]

ghost use Rattle.std.specs.Prelude.{◌≡◌, cond};
ghost use Rattle.std.specs.Float.{binary32};
ghost use Rattle.std.specs.Float.Ieee.{is_nan, of_bits as of_bits, to_bits};
ghost use Rattle.std.specs.Float.Ieee.Scale.{finite};
ghost use Rattle.float32.specs.Numbers.{max_of, min_of, clamp_of, fract_of};
ghost use Rattle.float32.specs.Order.{below};
ghost use Rattle.float32.specs.Root.{root_of, RootsNearest};
ghost use Rattle.float32.specs.OrderLaws.{OrderOfLevels};

use std::num::{f32_from_bits_with_nan, f32_to_bits_with_nan};

// std's, under the contract that others cite; so are `is_finite` and `fract`.
pub fn is_nan(x: f32) -> bool
    ensures { result ≡ is_nan x }
{
    x.is_nan()
}

#[tactic(auto, using(crate::proofs::Library::finite_alike))]
pub fn is_finite(x: f32) -> bool
    ensures { result ≡ finite x }
{
    x.is_finite()
}

// The larger of two. A NaN gives the other, and two zeros give +0.
// Not std's `max`, nor its `min` below: those leave open which of two zeros they give.
#[tactic(auto, unfolding(crate::specs::Numbers::max_of))]
pub fn max(a: f32, b: f32) -> f32
    ensures { result ≡ max_of a b }
{
    if a.is_nan() {
        b
    } else if b.is_nan() {
        a
    } else if a == 0.0 && b == 0.0 {
        0.0
    } else if a < b {
        b
    } else {
        a
    }
}

// The smaller of two. A NaN gives the other, and two zeros give the first.
#[tactic(auto, unfolding(crate::specs::Numbers::min_of))]
pub fn min(a: f32, b: f32) -> f32
    ensures { result ≡ min_of a b }
{
    if a.is_nan() {
        b
    } else if b.is_nan() {
        a
    } else if b < a {
        b
    } else {
        a
    }
}

// x within low and high. A NaN stays, and so does -0 at a bound of 0.
// Not std's `clamp`: that one asks for low at most high, and here every float may be given.
#[tactic(auto, unfolding(crate::specs::Numbers::clamp_of))]
pub fn clamp(x: f32, low: f32, high: f32) -> f32
    ensures { result ≡ clamp_of x low high }
{
    if x < low {
        low
    } else if high < x {
        high
    } else {
        x
    }
}

// x minus its whole part.
#[tactic(auto, using(crate::proofs::Library::whole_alike), unfolding(crate::specs::Numbers::fract_of))]
pub fn fract(x: f32) -> f32
    ensures { result ≡ fract_of x }
{
    x.fract()
}

// Whether a is below b in the order of levels: -0 below +0, a NaN above every number, all NaNs alike.
#[tactic(auto, using(crate::proofs::Library::below_from_nan, crate::proofs::Library::below_nan, crate::proofs::Library::below_numbers))]
pub fn total_below(a: f32, b: f32) -> bool
    ensures { result ≡ below a b }
{
    // std's order takes no NaN.
    !a.is_nan() && (b.is_nan() || a.total_cmp(&b).is_lt())
}

// The roots of 0 to 8.
const ROOTS: [f32; 9] = [
    0.0, 1.0, 1.4142135, 1.7320508, 2.0, 2.236068, 2.4494898, 2.6457512, 2.828427,
];

// The square root of n, rounded once, for n up to 8. There is none beyond: a NaN.
#[tactic(auto, using(crate::proofs::Roots::listed, crate::proofs::Roots::none_past))]
pub fn root(n: u8) -> f32
    ensures { result ≡ root_of n }
{
    ROOTS.get(n as usize).copied().unwrap_or(f32::NAN)
}

// The theorem that each root from 1 to 8 is the float nearest to the real root.
#[tactic(auto, using(crate::proofs::Roots::nearest))]
pub fn roots_nearest()
    ensures { RootsNearest }
{}

// The theorem that the order of levels is the order of numbers, with -0 below +0 and NaN last.
#[tactic(auto, using(crate::proofs::Ordering::level_order))]
pub fn order_of_levels()
    ensures { OrderOfLevels }
{}

// The float of a bit pattern. Every NaN pattern gives a NaN; the pattern of one is refused by std's `from_bits`.
pub fn from_bits(b: u32) -> f32
    ensures { result ≡ of_bits binary32 b }
{
    f32_from_bits_with_nan(b)
}

// The bit pattern of a float. A NaN gives 7FC00000; std's `to_bits` takes none.
pub fn to_bits(x: f32) -> u32
    ensures { result ≡ to_bits binary32 x }
{
    f32_to_bits_with_nan(x)
}
