// The instrument's design (the Rust's design.rs): play mode, modulation, and what a design must be to be accepted.
// The patch, the pitch map and the master chain are the host's.

#![tactic(auto)]

ghost use Rattle.std.specs.Prelude.{◌≡◌};
ghost use Rattle.design.specs.Zeros.{zero_design};
ghost use Rattle.design.specs.Accepted.{lfo_active, modulated, modulation_finite, numbers_fit, floats_fit, design_reply, copies_of};

use outcome::Refusal;

// How notes share voices.
#[derive(Clone, Copy, Default, PartialEq, Eq)]
pub enum PlayMode {
    #[default]
    Poly,
    // One voice at a time; `legato` keeps its envelope running.
    Mono { legato: bool },
}

// The amplitude envelope's settings: seconds, seconds, a level, seconds.
#[derive(Clone, Copy, Default)]
pub struct Adsr {
    pub a: f32,
    pub d: f32,
    pub s: f32,
    pub r: f32,
}

// Rate and depth of each LFO. A rate or depth not above 0 is off.
#[derive(Clone, Copy, Default)]
pub struct Modulation {
    pub vibrato_rate: f32,
    pub vibrato_cents: f32,
    pub tremolo_rate: f32,
    pub tremolo_depth: f32,
    pub filter_rate: f32,
    pub filter_octaves: f32,
}

// An LFO counts where its depth and its rate are above 0.
#[tactic(auto, unfolding(crate::specs::Accepted::lfo_active))]
fn lfo_active(depth: f32, rate: f32) -> bool
    ensures { result ≡ lfo_active depth rate }
{
    depth > 0.0 && rate > 0.0
}

impl Modulation {
    // Whether any LFO counts.
    #[tactic(auto, unfolding(crate::specs::Accepted::modulated))]
    pub fn is_active(self) -> bool
        ensures { result ≡ modulated self }
    {
        lfo_active(self.vibrato_cents, self.vibrato_rate)
            || lfo_active(self.tremolo_depth, self.tremolo_rate)
            || lfo_active(self.filter_octaves, self.filter_rate)
    }

    // Whether all six are numbers.
    #[tactic(auto, unfolding(crate::specs::Accepted::modulation_finite, envelope::specs::Start::all_finite))]
    pub fn all_finite(self) -> bool
        ensures { result ≡ modulation_finite self }
    {
        envelope::all_finite(&[
            self.vibrato_rate,
            self.vibrato_cents,
            self.tremolo_rate,
            self.tremolo_depth,
            self.filter_rate,
            self.filter_octaves,
        ])
    }
}

#[derive(Clone, Copy)]
pub struct InstrumentDesign {
    pub sample_rate: u32,
    pub max_voices: u32,
    pub mode: PlayMode,
    pub unison: u32,
    pub unison_width: f32,
    pub amp: Adsr,
    // The one-pole coefficient per sample that the host works out from the glide time.
    pub glide: f32,
    pub modulation: Modulation,
}

// The design of the state that comes with a refused start.
// By hand: a derived one promises what its fields' own do, and no wrong edit of it could be written.
impl Default for InstrumentDesign {
    ghost is_default = { λ d. d ≡ zero_design };

    fn default() -> InstrumentDesign {
        InstrumentDesign {
            sample_rate: 0,
            max_voices: 0,
            mode: PlayMode::default(),
            unison: 0,
            unison_width: 0.0,
            amp: Adsr::default(),
            glide: 0.0,
            modulation: Modulation::default(),
        }
    }
}

impl InstrumentDesign {
    #[tactic(auto, unfolding(crate::specs::Accepted::numbers_fit))]
    fn numbers_fit(self) -> bool
        ensures { result ≡ numbers_fit self }
    {
        envelope::rate_fits(self.sample_rate)
            && 1 <= self.max_voices
            && self.max_voices <= 32
            && self.unison <= 8
    }

    #[tactic(auto, unfolding(crate::specs::Accepted::floats_fit, envelope::specs::Start::all_finite))]
    fn floats_fit(self) -> bool
        ensures { result ≡ floats_fit self }
    {
        let amp = self.amp;
        let settings = [amp.a, amp.d, amp.s, amp.r, self.unison_width, self.glide];
        envelope::all_finite(&settings) && self.modulation.all_finite()
    }

    // Numbers are looked at before floats.
    #[tactic(auto, unfolding(crate::specs::Accepted::design_reply))]
    pub fn accepted(self) -> Result<(), Refusal>
        ensures { result ≡ design_reply self }
    {
        if !self.numbers_fit() {
            return Err(Refusal::OutsideLimits);
        }
        if !self.floats_fit() {
            return Err(Refusal::NotFinite);
        }
        Ok(())
    }

    // How many copies a voice has.
    #[tactic(auto, unfolding(crate::specs::Accepted::copies_of))]
    pub fn copies(self) -> u32
        ensures { result ≡ copies_of self }
    {
        self.unison.max(1)
    }
}
