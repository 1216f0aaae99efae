// A voice in the mix (the Rust's `render_block` of instrument/mod.rs), in parts of at most 64 frames.
// Each sum takes its terms in the order of the Rust: voice by voice, copy by copy.

#![tactic(auto)]

ghost use Rattle.std.specs.Prelude.{◌≡◌, ◌+◌, ◌*◌, ◌≤◌, ◌<◌, leb, length, take, drop};
ghost use Rattle.lists.specs.Prefix.{fold};
ghost use Rattle.model.specs.Voices.{aged};
ghost use Rattle.model.specs.Mix.{mixing, interleave, on_left, on_right};
ghost use Rattle.render.specs.Parts.{part_copy, framed, PartFits, CopiesFit, SidesFit, BothSides};
ghost use Rattle.render.specs.Mixes.{AddedAs, added_voice, with_env, PutAs, goes_on};

use envelope::EnvGen;
use lists::fills;
use stream::UnisonCopy;
use voice::Voice;

// The sums of one frame. The buffers of a block are one for each side, as in the Rust: definitions speak of a side alone.
#[derive(Clone, Copy)]
struct Sums {
    left: f32,
    right: f32,
}

// One frame of the copies: their samples stand n places apart, the first one's first.
#[tactic(auto, using(crate::proofs::Turns::frame_turns))]
fn add_frame<const K: usize>(
    copies: &[UnisonCopy; K],
    samples: &[f32],
    n: usize,
    level: f32,
    sums: Sums,
) -> Sums
    requires { n * K < length samples.now + n }
    ensures left { result.left ≡ framed on_left n level samples.now copies.now sums.left }
    ensures right { result.right ≡ framed on_right n level samples.now copies.now sums.right }
{
    let mut left = sums.left;
    let mut right = sums.right;
    for (k, copy) in copies.iter().enumerate() {
        let x = samples[n * k] * level;
        left = left + x * copy.l;
        right = right + x * copy.r;
    }
    Sums { left, right }
}

// Copies go into a part in one pass, on both sides. By value: behind a reference each frame reads the gains anew, which
// costs a tenth of the pass. The sums by index: of what goes through a zip of `iter_mut` a proof knows nothing.
// No struct of what travels together from here on: each step lends another piece of it, so it would be made anew for
// each call.
#[tactic(auto, using(crate::proofs::Turns::part_turns))]
fn add_together<const K: usize>(
    copies: [UnisonCopy; K],
    samples: &[f32],
    n: usize,
    levels: &[f32],
    left: &mut [f32],
    right: &mut [f32],
)
    requires { PartFits n K samples.now levels.now left.old right.old }
    ensures { BothSides (λ side sums. (fold (part_copy side n (length levels.now) levels.now) (mixing samples.now sums) copies.entry).sums) on_left on_right left.old right.old left.new right.new }
{
    for (f, level) in levels.iter().enumerate() {
        let sums = Sums {
            left: left[f],
            right: right[f],
        };
        let more = add_frame(&copies, &samples[f..], n, *level, sums);
        left[f] = more.left;
        right[f] = more.right;
    }
}

// Up to four copies go into a part: four in one pass, fewer one by one.
#[tactic(auto, using(crate::proofs::Turns::take_four))]
fn add_few(
    copies: &[UnisonCopy],
    samples: &[f32],
    n: usize,
    levels: &[f32],
    left: &mut [f32],
    right: &mut [f32],
)
    requires { (length copies.now ≤ 4) × PartFits n (length copies.now) samples.now levels.now left.old right.old }
    ensures { BothSides (λ side sums. (fold (part_copy side n (length levels.now) levels.now) (mixing samples.now sums) copies.now).sums) on_left on_right left.old right.old left.new right.new }
{
    if let Some(four) = copies.first_chunk::<4>() {
        add_together(*four, samples, n, levels, left, right);
        return;
    }
    #[tactic(auto, using(crate::proofs::Turns::copy_turns))]
    for (i, copy) in copies.iter().enumerate() {
        add_together([*copy], &samples[n * i..], n, levels, left, right);
    }
}

// The copies of one voice go into a part that begins at frame a; each has n samples.
fn add_copies(
    copies: &[UnisonCopy],
    samples: &[f32],
    n: usize,
    a: usize,
    levels: &[f32],
    left: &mut [f32],
    right: &mut [f32],
)
    requires { CopiesFit n (length copies.now) a samples.now levels.now left.old right.old }
    ensures { BothSides (λ side sums. (fold (part_copy side n (length levels.now) levels.now) (mixing (drop a samples.now) sums) copies.now).sums) on_left on_right left.old right.old left.new right.new }
{
    let mut rest = samples;
    for few in copies.chunks(4) {
        add_few(few, &rest[a..], n, levels, left, right);
        rest = &rest[n * few.len()..];
    }
}

// A voice goes into the sums part by part, and the envelope of the next part is the one behind this. The parts by
// index: of what goes through `chunks_mut` a proof knows nothing.
fn add_parts(v: Voice, trem: f32, samples: &[f32], left: &mut [f32], right: &mut [f32]) -> EnvGen
    requires { SidesFit v samples.now left.old right.old }
    ensures { (result ≡ aged (length left.old) v.env) × BothSides (λ side. added_voice side v (length left.old) trem samples.now 0) on_left on_right left.old right.old left.new right.new }
{
    let n = left.len();
    let k = v.copies_shown();
    // Apart from the voice: a part of what lies in it keeps the whole voice in memory.
    let copies = v.copies;
    let mut e = v.env;
    // Once for all the parts: each part writes its levels over those of the part before.
    let mut levels = [0.0f32; 64];
    for a in (0..n).step_by(64) {
        let end = n.min(a + 64);
        e = levels::fill_all(e, v.gain, trem, &mut levels[..end - a]);
        add_copies(
            &copies[..k],
            samples,
            n,
            a,
            &levels[..end - a],
            &mut left[a..end],
            &mut right[a..end],
        );
    }
    e
}

// Whether n numbers for each of k copies stand from p on, of `len`.
fn stand_from(p: usize, n: usize, k: usize, len: usize) -> bool
    requires { (n ≤ 1024) × (k ≤ 8) }
    ensures { result ≡ leb (p + n * k) len }
{
    p <= len && n * k <= len - p
}

// One voice goes into the sums of both sides, its samples from p on; gives its envelope n frames later. Where
// something does not fit, all is left as it is: so a count and a place, which slices could not hold unchecked.
pub fn add_voice(
    v: Voice,
    n: usize,
    trem: f32,
    samples: &[f32],
    p: usize,
    left: &mut [f32],
    right: &mut [f32],
) -> EnvGen
    ensures { AddedAs v n trem samples.now p left.old right.old left.new right.new result }
{
    if n <= 1024
        && n <= left.len()
        && n <= right.len()
        && stand_from(p, n, v.copies_shown(), samples.len())
    {
        return add_parts(v, trem, &samples[p..], &mut left[..n], &mut right[..n]);
    }
    v.env
}

// The voice with another envelope.
#[tactic(auto, unfolding(crate::specs::Mixes::with_env))]
pub fn with_env(v: Voice, env: EnvGen) -> Voice
    ensures { result ≡ with_env v env }
{
    Voice { env, ..v }
}

// The sums of each side, left before right. By index: of what goes through `chunks_exact_mut` a proof knows nothing.
#[tactic(auto, using(crate::proofs::Turns::put_more))]
fn put_pairs(left: &[f32], right: &[f32], out: &mut [f32])
    requires { (length right.now ≡ length left.now) × (2 * length left.now ≡ length out.old) }
    ensures { out.new ≡ interleave left.now right.now }
{
    for f in 0..left.len() {
        out[2 * f] = left[f];
        out[2 * f + 1] = right[f];
    }
}

// The first m sums of both sides are written, left before right. Where something does not fit, all is left as it is: so
// a count, which slices could not hold unchecked.
pub fn put(left: &[f32], right: &[f32], m: usize, out: &mut [f32])
    ensures { PutAs left.now right.now m out.old out.new }
{
    if m <= left.len() && m <= right.len() && fills(2, m, out.len()) {
        put_pairs(&left[..m], &right[..m], out);
    }
}

// Whether a voice goes on, by its envelope: neither run down nor faded.
pub fn goes_on(env: EnvGen) -> bool
    ensures { result ≡ goes_on env }
{
    env.active() && !env.faded()
}
