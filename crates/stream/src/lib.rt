// One copy of a voice and the pitch part of the graph that renders it
// (the Rust's UnisonCopy, and StreamGraph of streaming/mod.rs). The graph's samples are the host's.

#![tactic(auto)]

ghost use Rattle.std.specs.Prelude.{◌≡◌, ◌≤◌, length};
ghost use Rattle.std.specs.Bool.{MatchBool};
ghost use Rattle.std.specs.Float.Ieee.{eq};
ghost use Rattle.float32.specs.Numbers.{one};
ghost use Rattle.stream.specs.Copies.{spread_of, new_copy, caught_up};
ghost use Rattle.stream.specs.Pitch.{bent, cut_to, glided_to, GlidedOver};

// A copy: its channel gains, the note's pitch scale on its way to a target, and the pitch wheel's factor.
#[derive(Clone, Copy)]
pub struct UnisonCopy {
    pub l: f32,
    pub r: f32,
    pub pitch: f32,
    pub pitch_target: f32,
    pub glide: f32,
    pub bend: f32,
    // The filter cutoff last set, for the host to read.
    pub cutoff: Option<f32>,
}

// Copies lie evenly over -1 to 1; a single one is in the middle.
#[tactic(auto, unfolding(crate::specs::Copies::spread_of))]
fn spread(k: u8, n: u8) -> f32
    ensures { result ≡ spread_of k n }
{
    if n <= 1 {
        0.0
    } else {
        (k as f32 / (n - 1) as f32 - 0.5) * 2.0
    }
}

impl UnisonCopy {
    // Copy k of n at the stereo width `width`. A stack is no louder than one copy.
    #[tactic(auto, unfolding(crate::specs::Copies::new_copy, crate::specs::Copies::pan_of, crate::specs::Copies::norm_of))]
    pub fn new(k: u8, n: u8, width: f32) -> UnisonCopy
        ensures { result ≡ new_copy k n width }
    {
        let norm = 1.0 / float32::root(n);
        let pan = float32::clamp(spread(k, n) * width, -1.0, 1.0);
        UnisonCopy {
            l: float32::min(1.0 - pan, 1.0) * norm,
            r: float32::min(1.0 + pan, 1.0) * norm,
            pitch: 1.0,
            pitch_target: 1.0,
            glide: 1.0,
            bend: 1.0,
            cutoff: None,
        }
    }

    // A new copy takes over the wheel and the brightness where they have been moved.
    #[tactic(auto, unfolding(crate::specs::Copies::caught_up))]
    pub fn catch_up(self, bend: f32, brightness: f32) -> UnisonCopy
        ensures { result ≡ caught_up bend brightness self }
    {
        self.unless_one(bend, |copy| copy.set_bend(bend))
            .unless_one(brightness, |copy| copy.set_cutoff(brightness))
    }

    // Changed where `x` is not 1.
    fn unless_one<F: FnOnce(UnisonCopy) -> UnisonCopy>(self, x: f32, change: F) -> UnisonCopy
        requires { F.IsAlwaysCallable change }
        ensures { MatchBool (eq x one) (result ≡ self) (F.post change self result) }
    {
        if x == 1.0 { self } else { change(self) }
    }

    // The pitch aims at `scale` and moves by `coeff` of the way per sample; a NaN coefficient snaps.
    #[tactic(auto, unfolding(crate::specs::Pitch::glided_to, crate::specs::Pitch::pitched, crate::specs::Pitch::coefficient))]
    pub fn glide_pitch(mut self, scale: f32, coeff: f32) -> UnisonCopy
        ensures { result ≡ glided_to scale coeff self }
    {
        self.pitch_target = float32::max(scale, 0.0);
        self.glide = if float32::is_nan(coeff) {
            1.0
        } else {
            float32::clamp(coeff, 1.1754944e-38, 1.0)
        };
        self
    }

    // The wheel's factor acts at once, on top of the pitch.
    #[tactic(auto, unfolding(crate::specs::Pitch::bent, crate::specs::Pitch::with_bend))]
    pub fn set_bend(mut self, mul: f32) -> UnisonCopy
        ensures { result ≡ bent mul self }
    {
        self.bend = float32::max(mul, 0.0);
        self
    }

    #[tactic(auto, unfolding(crate::specs::Pitch::cut_to, crate::specs::Pitch::with_cutoff))]
    pub fn set_cutoff(mut self, scale: f32) -> UnisonCopy
        ensures { result ≡ cut_to scale self }
    {
        self.cutoff = Some(float32::max(scale, 0.01));
        self
    }

    // Writes the pitch of the next `out.len()` samples and gives the copy as it is after them.
    pub fn glide_block(mut self, out: &mut [f32]) -> UnisonCopy
        ensures { GlidedOver self out.old out.new result }
    {
        let target = self.pitch_target;
        let glide = self.glide;
        let bend = self.bend;
        let mut pitch = self.pitch;
        for place in out {
            pitch = pitch + (target - pitch) * glide;
            *place = pitch * bend;
        }
        self.pitch = pitch;
        self
    }
}
