// The Rattle side of the speed comparison (docs/BENCHMARK.md). Each export builds a state by real calls, repeats one
// call `turns` times and returns a sum over what the calls gave, which must equal the Rust's. The parameters of an
// export stand one by one: C passes numbers and slices.

#![tactic(auto)]

mod build;
mod events;
mod rounds;
mod sums;

use build::Size;

// Plan of `frames` frames where no copy glides. `curve` has frames × voices × copies places; `half`, `whole` and
// `four` are those of `build::table`.
#[unsafe(no_mangle)]
pub extern "C" fn bench_plan(
    max: u32,
    unison: u32,
    first: usize,
    second: usize,
    frames: usize,
    turns: usize,
    half: &mut [f32],
    whole: &mut [f32],
    four: &mut [f32],
    curve: &mut [f32],
) -> u64 {
    let size = Size {
        max,
        unison,
        first,
        second,
    };
    let s = build::table(size, half, whole, four);
    let t = rounds::plans(s, frames, turns, curve);
    sums::floats(sums::table(&t), curve)
}

// Plan where every copy glides.
#[unsafe(no_mangle)]
pub extern "C" fn bench_glide(
    max: u32,
    unison: u32,
    first: usize,
    second: usize,
    frames: usize,
    turns: usize,
    curve: &mut [f32],
) -> u64 {
    let size = Size {
        max,
        unison,
        first,
        second,
    };
    let t = rounds::plans(build::gliding(size), frames, turns, curve);
    sums::floats(sums::table(&t), curve)
}

// Mix of `frames` frames, from the same samples every time.
#[unsafe(no_mangle)]
pub extern "C" fn bench_mix(
    max: u32,
    unison: u32,
    first: usize,
    second: usize,
    frames: usize,
    turns: usize,
    half: &mut [f32],
    whole: &mut [f32],
    four: &mut [f32],
    samples: &[f32],
    out: &mut [f32],
) -> u64 {
    let size = Size {
        max,
        unison,
        first,
        second,
    };
    let s = build::table(size, half, whole, four);
    let t = rounds::mixes(s, frames, turns, samples, out);
    sums::floats(sums::table(&t), out)
}

// One of the event calls, by number (`events::rounds`).
#[unsafe(no_mangle)]
pub extern "C" fn bench_event(
    which: u8,
    max: u32,
    unison: u32,
    first: usize,
    second: usize,
    turns: usize,
    half: &mut [f32],
    whole: &mut [f32],
    four: &mut [f32],
) -> u64 {
    let size = Size {
        max,
        unison,
        first,
        second,
    };
    let s = build::table(size, half, whole, four);
    events::rounds(which, s, turns)
}

// The MIDI reader over a whole stream.
#[unsafe(no_mangle)]
pub extern "C" fn bench_midi(stream: &[u8], turns: usize) -> u64 {
    rounds::streams(stream, turns)
}
