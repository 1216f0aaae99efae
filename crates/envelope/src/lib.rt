// The gated envelope of a voice (the Rust's envelope.rs), as a record that goes in by value and comes back.

#![tactic(auto)]

ghost use Rattle.std.specs.Prelude.{◌≡◌, cond};
ghost use Rattle.std.specs.List.{list_all};
ghost use Rattle.std.specs.Float.Ieee.Scale.{finite};
ghost use Rattle.envelope.specs.Start.{rate_fits, new_env, refused_env};
ghost use Rattle.envelope.specs.Gates.{at, gated_on, gated_off, killed, is_active, is_faded};
ghost use Rattle.envelope.specs.Ticks.{ticked};

use outcome::{Outcome, Refusal};

// Stage of a gated envelope.
#[derive(Clone, Copy, Default, PartialEq, Eq)]
pub enum Stage {
    #[default]
    Idle,
    Attack,
    Decay,
    Sustain,
    Release,
}

// Linear segments: `a`, `d`, `r` in seconds, `s` a level, `sr` the sample rate.
#[derive(Clone, Copy, Default)]
pub struct EnvGen {
    pub a: f32,
    pub d: f32,
    pub s: f32,
    pub r: f32,
    pub sr: f32,
    pub stage: Stage,
    pub level: f32,
    // The level at gate_off, from which the release runs down.
    pub rel_from: f32,
}

// Whether a sample rate lies within the limits.
#[tactic(auto, unfolding(crate::specs::Start::rate_fits))]
pub fn rate_fits(rate: u32) -> bool
    ensures { result ≡ rate_fits rate }
{
    8_000 <= rate && rate <= 192_000
}

// Whether all settings are numbers.
#[tactic(auto, using(crate::proofs::Starts::each))]
pub fn all_finite(settings: &[f32]) -> bool
    ensures { result ≡ list_all finite settings.now }
{
    settings.iter().all(|x| float32::is_finite(*x))
}

// A refused start comes with a record of zeros, Idle.
fn refused(reason: Refusal) -> Outcome<EnvGen, ()>
    ensures { result ≡ refused_env reason }
{
    Outcome::refused(EnvGen::default(), reason)
}

impl EnvGen {
    // Four settings and no struct of them: only this function takes the four together, so a struct would serve one call.
    #[tactic(auto, using(crate::proofs::Starts::rates), unfolding(crate::specs::Start::new_env, crate::specs::Start::settled, crate::specs::Start::all_finite))]
    pub fn new(a: f32, d: f32, s: f32, r: f32, rate: u32) -> Outcome<EnvGen, ()>
        ensures { result ≡ new_env a d s r rate }
    {
        if !rate_fits(rate) {
            return refused(Refusal::OutsideLimits);
        }
        if !all_finite(&[a, d, s, r]) {
            return refused(Refusal::NotFinite);
        }
        let env = EnvGen {
            a: float32::max(a, 0.0),
            d: float32::max(d, 0.0),
            s: float32::clamp(s, 0.0, 1.0),
            r: float32::max(r, 0.0),
            sr: rate as f32,
            ..EnvGen::default()
        };
        Outcome::answered(env, ())
    }

    // The envelope in another stage at another level.
    #[tactic(auto, unfolding(crate::specs::Gates::at))]
    fn at(self, stage: Stage, level: f32) -> EnvGen
        ensures { result ≡ at self stage level }
    {
        EnvGen {
            stage,
            level,
            ..self
        }
    }

    // The attack starts from the present level.
    #[tactic(auto, unfolding(crate::specs::Gates::gated_on))]
    pub fn gate_on(self) -> EnvGen
        ensures { result ≡ gated_on self }
    {
        self.at(Stage::Attack, self.level)
    }

    // The release runs down from the present level; an idle envelope stays as it is.
    #[tactic(auto, unfolding(crate::specs::Gates::gated_off, crate::specs::Gates::released, crate::specs::Gates::at, crate::specs::Gates::is_idle))]
    pub fn gate_off(mut self) -> EnvGen
        ensures { result ≡ gated_off self }
    {
        if self.stage == Stage::Idle {
            return self;
        }
        self.rel_from = self.level;
        self.at(Stage::Release, self.level)
    }

    // A stolen voice fades within 5 ms instead of being cut.
    #[tactic(auto, unfolding(crate::specs::Gates::killed, crate::specs::Gates::with_release))]
    pub fn kill(mut self) -> EnvGen
        ensures { result ≡ killed self }
    {
        self.r = float32::min(self.r, 0.005);
        self.gate_off()
    }

    // True until the release has run down to silence.
    #[tactic(auto, unfolding(crate::specs::Gates::is_active, crate::specs::Gates::is_idle))]
    pub fn active(self) -> bool
        ensures { result ≡ is_active self }
    {
        self.stage != Stage::Idle
    }

    pub fn level(self) -> f32
        ensures { result ≡ self.level }
    {
        self.level
    }

    // True once a held note has decayed to silence.
    #[tactic(auto, unfolding(crate::specs::Gates::is_faded, crate::specs::Gates::is_sustain))]
    pub fn faded(self) -> bool
        ensures { result ≡ is_faded self }
    {
        self.stage == Stage::Sustain && self.s <= 1e-4
    }

    // At the next level of its segment, or at the segment's end in the stage after it.
    #[tactic(auto, unfolding(crate::specs::Gates::at))]
    fn toward(self, level: f32, over: bool, end: Stage, last: f32) -> EnvGen
        ensures { result ≡ cond over (at self end last) (at self self.stage level) }
    {
        if over {
            self.at(end, last)
        } else {
            self.at(self.stage, level)
        }
    }

    // One sample further. The record's level is the sample. A time not above 0 ends its segment at once.
    #[tactic(auto, unfolding(crate::specs::Ticks::ticked, crate::specs::Ticks::ticked_in, crate::specs::Ticks::ticked_attack, crate::specs::Ticks::ticked_decay, crate::specs::Ticks::ticked_release, crate::specs::Ticks::rise, crate::specs::Ticks::fall, crate::specs::Ticks::decline, crate::specs::Gates::at))]
    pub fn tick(self) -> EnvGen
        ensures { result ≡ ticked self }
    {
        match self.stage {
            Stage::Idle => self.at(Stage::Idle, 0.0),
            Stage::Attack => {
                let level = self.level + 1.0 / (self.a * self.sr);
                self.toward(level, self.a <= 0.0 || level >= 1.0, Stage::Decay, 1.0)
            }
            Stage::Decay => {
                let level = self.level - (1.0 - self.s) / (self.d * self.sr);
                self.toward(
                    level,
                    self.d <= 0.0 || level <= self.s,
                    Stage::Sustain,
                    self.s,
                )
            }
            Stage::Sustain => self.at(Stage::Sustain, self.s),
            Stage::Release => {
                let level = self.level - self.rel_from / (self.r * self.sr);
                self.toward(level, self.r <= 0.0 || level <= 0.0, Stage::Idle, 0.0)
            }
        }
    }
}
