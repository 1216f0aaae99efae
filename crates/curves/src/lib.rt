// Plan's glide of a voice: each copy writes its pitch numbers (the Rust's `glide_block`, four copies side by side).

#![tactic(auto)]

ghost use Rattle.std.specs.Prelude.{◌≡◌, true, map, ◌+◌, ◌*◌, ◌≤◌, ◌<◌, length, take, replicate, IfSome};
ghost use Rattle.stream.specs.Pitch.{glide_step, stepped, heard as heard_of, glided, GlidedOver};
ghost use Rattle.curves.specs.Glides.{column, flat_curve, GlidedCopies, GlidedVoice, StandsAs, StandingCurve};

use lists::fills;
use stream::UnisonCopy;
use voice::Voice;

// The pitch one sample later. This, `step` and `heard` are one frame of `glide_block`, for the pass side by side.
#[tactic(auto, unfolding(stream::specs::Pitch::glide_step))]
fn next_pitch(c: UnisonCopy) -> f32
    ensures { result ≡ glide_step c }
{
    c.pitch + (c.pitch_target - c.pitch) * c.glide
}

// The copy one sample later.
#[tactic(auto, unfolding(stream::specs::Pitch::stepped, stream::specs::Pitch::pitched))]
fn step(mut c: UnisonCopy) -> UnisonCopy
    ensures { result ≡ stepped c }
{
    c.pitch = next_pitch(c);
    c
}

// The pitch that its oscillators then see.
#[tactic(auto, unfolding(stream::specs::Pitch::heard))]
fn heard(c: UnisonCopy) -> f32
    ensures { result ≡ heard_of c }
{
    c.pitch * c.bend
}

// Whether the next sample leaves the pitch where it is; so do all later ones. By its bits: a comparison of floats would
// take the two zeros for one.
fn steady(c: UnisonCopy) -> bool
    ensures { (result ≡ true → glide_step c ≡ c.pitch) × (glide_step c ≡ c.pitch → result ≡ true) }
{
    float32::to_bits(next_pitch(c)) == float32::to_bits(c.pitch)
}

// One number in every place. A loop: a form may cost a tenth of Plan's instructions, and the library's `fill`, which
// writes the last place by itself, costs a quarter (64 voices of eight copies that stand, at 64 frames).
fn hold(x: f32, out: &mut [f32])
    ensures { out.new ≡ replicate (length out.old) x }
{
    for place in out.iter_mut() {
        *place = x;
    }
}

// How many copies at the head stand.
fn standing_first(copies: &[UnisonCopy]) -> usize
    ensures { (result ≤ length copies.now)
        × ((k : _) → map (glided k) (take result copies.now) ≡ take result copies.now) }
{
    copies
        .iter()
        .position(|c| !steady(*c))
        .unwrap_or(copies.len())
}

// One number of each copy, in every place of its part.
fn write_flat(copies: &[UnisonCopy], frames: usize, curve: &mut [f32])
    requires { frames * length copies.now ≡ length curve.old }
    ensures { curve.new ≡ flat_curve frames copies.now }
{
    // The parts by index: of what goes through `chunks_exact_mut` a proof knows nothing.
    for (i, copy) in copies.iter().enumerate() {
        hold(heard(*copy), &mut curve[frames * i..frames * (i + 1)]);
    }
}

// The copy's own glide, without the sums where they change nothing: most copies stand at their target.
#[tactic(auto, using(crate::proofs::Holds::steady_glided, crate::proofs::Holds::steady_flat))]
fn glide_one(c: UnisonCopy, out: &mut [f32]) -> UnisonCopy
    ensures { GlidedOver c out.old out.new result }
{
    if steady(c) {
        hold(heard(c), out);
        return c;
    }
    c.glide_block(out)
}

// One sample of each copy; their numbers stand n places apart.
#[tactic(auto, using(crate::proofs::Rows::copy_more, crate::proofs::Rows::number_more), unfolding(crate::specs::Glides::column))]
fn step_four(copies: &mut [UnisonCopy; 4], n: usize, curve: &mut [f32])
    requires { n * 3 < length curve.old }
    ensures { (copies.new ≡ map stepped copies.old) × (curve.new ≡ column n 0 (map heard_of copies.new) curve.old) }
{
    for (k, copy) in copies.iter_mut().enumerate() {
        *copy = step(*copy);
        curve[n * k] = heard(*copy);
    }
}

// The glides of four copies side by side, n numbers each: in one glide each sum waits for the one before.
fn glide_four(mut copies: [UnisonCopy; 4], n: usize, curve: &mut [f32]) -> [UnisonCopy; 4]
    requires { n * 4 ≡ length curve.old }
    ensures { GlidedCopies n copies result curve.new }
{
    for i in 0..n {
        step_four(&mut copies, n, &mut curve[i..]);
    }
    copies
}

// Four copies, to go side by side: none where they are fewer, or where the first one's pitch stands.
fn first_four(copies: &[UnisonCopy]) -> Option<[UnisonCopy; 4]>
    ensures { IfSome result (λ four. (4 ≤ length copies.now) × (four ≡ take 4 copies.now)) }
{
    let four = copies.first_chunk::<4>()?;
    if steady(four[0]) { None } else { Some(*four) }
}

// Up to four copies fill their part of the curve, side by side or one after the other. No struct of what travels
// together: each call lends another piece of it, so it would be made anew for each.
fn glide_few(copies: &mut [UnisonCopy], frames: usize, curve: &mut [f32])
    requires { (length copies.old ≤ 4) × (frames * length copies.old ≡ length curve.old) }
    ensures { GlidedCopies frames copies.old copies.new curve.new }
{
    if let Some(four) = first_four(copies) {
        copies.copy_from_slice(&glide_four(four, frames, curve));
        return;
    }
    // By index: of what goes through a zip of `iter_mut` a proof knows nothing.
    for i in 0..copies.len() {
        copies[i] = glide_one(copies[i], &mut curve[frames * i..frames * (i + 1)]);
    }
}

// Each copy fills its part of the curve with its pitch numbers.
fn glide_copies(copies: &mut [UnisonCopy], frames: usize, curve: &mut [f32])
    requires { frames * length copies.old ≡ length curve.old }
    ensures { GlidedCopies frames copies.old copies.new curve.new }
{
    let n = copies.len();
    // Those that stand at the head first, so that those that move behind them go by four.
    let head = standing_first(copies);
    write_flat(&copies[..head], frames, &mut curve[..frames * head]);
    // The parts by index: of what goes through `chunks_mut` a proof knows nothing.
    for i in (head..n).step_by(4) {
        let end = n.min(i + 4);
        glide_few(
            &mut copies[i..end],
            frames,
            &mut curve[frames * i..frames * end],
        );
    }
}

// The voice `frames` samples later; its copies fill the curve, one after the other. A curve of another size is left
// as it is.
pub fn glide_voice(mut v: Voice, frames: usize, curve: &mut [f32]) -> Voice
    ensures { GlidedVoice frames v result curve.old curve.new }
{
    let n = v.copies_shown();
    if fills(frames, n, curve.len()) {
        // Out and back: of a part of a field that a call writes through a proof knows nothing.
        let mut copies = v.copies;
        glide_copies(&mut copies[..n], frames, curve);
        v.copies = copies;
    }
    v
}

// Whether the voice is the same later.
pub fn stands(v: Voice) -> bool
    ensures { StandsAs v result }
{
    let n = v.copies_shown();
    v.copies[..n].iter().all(|c| steady(*c))
}

// One number of each copy, in every place of its part: the numbers of a voice that stands. A curve of another size is
// left as it is.
pub fn write_standing(v: Voice, frames: usize, curve: &mut [f32])
    ensures { StandingCurve frames v curve.old curve.new }
{
    let n = v.copies_shown();
    if !fills(frames, n, curve.len()) {
        return;
    }
    write_flat(&v.copies[..n], frames, curve);
}
