// Plan (the Rust's `apply_modulation`, and `glide_block` of every copy): the pitch curve of the next block.

ghost use Rattle.std.specs.Prelude.{◌≡◌, true, ◌≤◌};
ghost use Rattle.envelope.specs.Start.{rate_fits};
ghost use Rattle.model.specs.Plan.{tremolo_gain, applied};
ghost use Rattle.instrument.specs.View.{view};
ghost use Rattle.instrument.specs.Plans.{PlannedAs, plan_fits, factor_of, step_of, phase_on, wobble_of, StandsFor};

use crate::{Instrument, Reply};
use design::Modulation;
use outcome::{Outcome, Refusal};
use stream::UnisonCopy;

// The host's factor, where its LFO has a depth.
fn factor(depth: f32, host: f32) -> f32
    ensures { result ≡ factor_of depth host }
{
    if depth > 0.0 { host } else { 1.0 }
}

// Only the depth counts here, not the rate.
#[tactic(auto, unfolding(model::specs::Plan::tremolo_gain))]
fn tremolo_gain(m: Modulation, sine: f32) -> f32
    ensures { result ≡ tremolo_gain m sine }
{
    if m.tremolo_depth > 0.0 {
        1.0 - m.tremolo_depth * 0.5 * (1.0 - sine)
    } else {
        1.0
    }
}

// Seconds of a block. Both numbers are floats exactly.
#[tactic(auto, using(crate::proofs::Plans::rate_float))]
fn step_of(frames: usize, rate: u32) -> f32
    requires { (frames ≤ 1024) × (rate_fits rate ≡ true) }
    ensures { result ≡ step_of frames rate }
{
    frames as f32 / rate as f32
}

fn phase_on(phase: f32, rate: f32, step: f32) -> f32
    ensures { result ≡ phase_on phase rate step }
{
    float32::fract(phase + rate * step)
}

// The cutoff moves only where the filter has a depth.
#[tactic(auto, unfolding(crate::specs::Plans::wobble_of))]
fn wobble(copy: UnisonCopy, m: Modulation, bend: f32, cutoff: f32) -> UnisonCopy
    ensures { result ≡ wobble_of m bend cutoff copy }
{
    let bent = copy.set_bend(bend);
    if m.filter_octaves > 0.0 {
        bent.set_cutoff(cutoff)
    } else {
        bent
    }
}

impl Instrument {
    // Whether a state that bars no call plans so many frames into a curve of length `len`.
    #[tactic(auto, unfolding(crate::specs::Plans::plan_fits))]
    fn plan_fits(&self, frames: usize, len: usize) -> Result<(), Refusal>
        requires { self.now.table.count ≤ 64 }
        ensures { result ≡ plan_fits self.now frames len }
    {
        if !self.frames_fit(frames) {
            return Err(Refusal::Frames);
        }
        if self.copies_fill(frames, len) {
            Ok(())
        } else {
            Err(Refusal::LentLength)
        }
    }

    // The host's values act on every copy, and the phases move on by the block. The call's own arguments, as it is given them.
    fn apply_modulation(mut self, frames: usize, vibrato: f32, filter: f32, sine: f32) -> Instrument
        requires { (frames ≤ 1024) × (rate_fits self.design.sample_rate ≡ true) }
        ensures { StandsFor self (applied (view self) frames vibrato filter sine) result }
    {
        let m = self.design.modulation;
        let bend = self.bend * factor(m.vibrato_cents, vibrato);
        let cutoff = self.brightness * factor(m.filter_octaves, filter);
        self.table = self
            .table
            .change_all(|v| v.with_copies(|copy| wobble(copy, m, bend, cutoff)));
        let step = step_of(frames, self.design.sample_rate);
        self.vib_phase = phase_on(self.vib_phase, m.vibrato_rate, step);
        self.flt_phase = phase_on(self.flt_phase, m.filter_rate, step);
        self.trem_phase = phase_on(self.trem_phase, m.tremolo_rate, step);
        self.trem = tremolo_gain(m, sine);
        self
    }

    // Plans a block: modulation first, where it is active, then the pitch of every copy, frame by frame.
    pub fn plan(
        mut self,
        frames: usize,
        vibrato: f32,
        filter: f32,
        sine: f32,
        curve: &mut [f32],
    ) -> Outcome<Instrument, Reply>
        ensures { PlannedAs self frames vibrato filter sine curve.old curve.new result }
    {
        if let Err(refusal) = self.barred() {
            return Outcome::refused(self, refusal);
        }
        if let Err(refusal) = self.plan_fits(frames, curve.len()) {
            return Outcome::refused(self, refusal);
        }
        if self.design.modulation.is_active() {
            self = self.apply_modulation(frames, vibrato, filter, sine);
        }
        self.table = self.table.glide(frames, curve);
        self.frames = frames;
        Outcome::answered(self, Reply::Planned)
    }
}
