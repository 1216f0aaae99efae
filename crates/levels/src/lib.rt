// The levels of one voice over up to 64 frames (the envelope's part of the Rust's `render_block`), by runs of one
// stage. A run steps plain numbers as long as its stage lasts. The tick that leaves the stage is the envelope's own.

#![tactic(auto)]

ghost use Rattle.std.specs.Prelude.{◌≡◌, false};
ghost use Rattle.std.specs.Float.Ieee.{le};
ghost use Rattle.float32.specs.Numbers.{zero};
ghost use Rattle.levels.specs.Filled.{FilledAll, FilledAs};
ghost use Rattle.levels.specs.Runs.{loud, RunAs, slope_of, Steps};

use envelope::{EnvGen, Stage};

// The envelope behind the frames, and the levels of the frames with zeros behind them.
#[derive(Clone, Copy)]
pub struct Filled {
    pub env: EnvGen,
    pub levels: [f32; 64],
}

// What each level is multiplied by.
#[derive(Clone, Copy)]
struct Loudness {
    gain: f32,
    trem: f32,
}

impl Loudness {
    fn of(self, level: f32) -> f32
        ensures { result ≡ loud self level }
    {
        level * self.gain * self.trem
    }
}

// Where a run stands: the level of its last frame, and how many frames it filled.
#[derive(Clone, Copy)]
struct Run {
    level: f32,
    at: usize,
}

// The frames of a stage, step by step, short of its end. No struct of the envelope, `by` and the frames: each run starts
// from another envelope and lends another piece of the frames, so it would be made anew for each.
fn walk<N: Fn(f32) -> f32, E: Fn(f32) -> bool>(
    e: EnvGen,
    next: N,
    ends: E,
    by: Loudness,
    frames: &mut [f32],
) -> Run
    requires callable { (N.IsAlwaysCallable next) × (E.IsAlwaysCallable ends) }
    requires steps { Steps e (N.post next) (E.post ends) }
    ensures { RunAs e by frames.old frames.new result }
{
    let mut level = e.level;
    for (at, frame) in frames.iter_mut().enumerate() {
        let later = next(level);
        if ends(later) {
            return Run { level, at };
        }
        level = later;
        *frame = by.of(later);
    }
    Run {
        level,
        at: frames.len(),
    }
}

// By the same change in each frame, for `height` in `time` seconds. No run where the time is not above 0: the next tick
// leaves the stage.
#[tactic(auto, unfolding(crate::specs::Runs::Steps, crate::specs::Runs::in_stage, envelope::specs::Gates::at, model::specs::Voices::aged, model::specs::Mix::levels))]
fn slope<N: Fn(f32, f32) -> f32, E: Fn(f32) -> bool>(
    e: EnvGen,
    height: f32,
    time: f32,
    next: N,
    ends: E,
    by: Loudness,
    frames: &mut [f32],
) -> Run
    requires callable { (N.IsAlwaysCallable next) × (E.IsAlwaysCallable ends) }
    requires steps { le time zero ≡ false → Steps e (λ x. N.post next x (slope_of height time e.sr)) (E.post ends) }
    ensures { RunAs e by frames.old frames.new result }
{
    if time <= 0.0 {
        return Run {
            level: e.level,
            at: 0,
        };
    }
    let change = height / (time * e.sr);
    walk(e, |x| next(x, change), ends, by, frames)
}

// The run of the stage that the envelope is in.
#[tactic(auto, using(crate::proofs::Slopes::idle_step, crate::proofs::Slopes::attack_step, crate::proofs::Slopes::decay_step, crate::proofs::Slopes::sustain_step, crate::proofs::Slopes::release_step), unfolding(crate::specs::Runs::Steps))]
fn run_stage(e: EnvGen, by: Loudness, frames: &mut [f32]) -> Run
    ensures { RunAs e by frames.old frames.new result }
{
    let up = |x: f32, change: f32| x + change;
    let down = |x: f32, change: f32| x - change;
    match e.stage {
        Stage::Idle => walk(e, |_| 0.0, |_| false, by, frames),
        Stage::Attack => slope(e, 1.0, e.a, up, |y| y >= 1.0, by, frames),
        Stage::Decay => slope(e, 1.0 - e.s, e.d, down, |y| y <= e.s, by, frames),
        Stage::Sustain => walk(e, |_| e.s, |_| false, by, frames),
        Stage::Release => slope(e, e.rel_from, e.r, down, |y| y <= 0.0, by, frames),
    }
}

// A run, then the tick that ends it, until all the frames are filled. Gives the envelope behind them.
pub fn fill_all(e: EnvGen, gain: f32, trem: f32, levels: &mut [f32]) -> EnvGen
    ensures { FilledAll e gain trem levels.old levels.new result }
{
    let by = Loudness { gain, trem };
    let n = levels.len();
    let mut env = e;
    let mut f: usize = 0;
    // No `for`: a turn goes on by as many frames as its run filled.
    while f < n {
        let run = run_stage(env, by, &mut levels[f..n]);
        env.level = run.level;
        f += run.at;
        if f < n {
            env = env.tick();
            levels[f] = by.of(env.level);
            f += 1;
        }
    }
    env
}

// The same into numbers of its own, for m frames.
pub fn fill(e: EnvGen, gain: f32, trem: f32, m: usize) -> Filled
    ensures { FilledAs e gain trem m result }
{
    let mut levels = [0.0f32; 64];
    let env = fill_all(e, gain, trem, &mut levels[..m.min(64)]);
    Filled { env, levels }
}
