// Mix (the Rust's `render_block`): the sound of the open block, and the voices that end with it.

ghost use Rattle.std.specs.Prelude.{◌≡◌, ◌≤◌};
ghost use Rattle.instrument.specs.Mixes.{MixAs, mix_fits};

use crate::{Instrument, Report};
use lists::fills;
use outcome::{Outcome, Refusal};

impl Instrument {
    // Whether a well formed state mixes so many samples into so many places.
    #[tactic(auto, unfolding(crate::specs::Mixes::mix_fits))]
    fn mix_fits(&self, samples: usize, places: usize) -> Result<(), Refusal>
        requires { self.now.table.count ≤ 64 }
        ensures { result ≡ mix_fits self.now samples places }
    {
        if self.frames == 0 {
            return Err(Refusal::NoBlock);
        }
        if self.copies_fill(self.frames, samples) && fills(2, self.frames, places) {
            Ok(())
        } else {
            Err(Refusal::LentLength)
        }
    }

    // Sums the samples of every copy into both sides, drops the voices that have ended and closes the block.
    pub fn mix(mut self, samples: &[f32], out: &mut [f32]) -> Outcome<Instrument, Report>
        ensures { MixAs self samples.now out.old out.new result }
    {
        if !self.well_formed() {
            return Outcome::refused(self, Refusal::Malformed);
        }
        if let Err(refusal) = self.mix_fits(samples.len(), out.len()) {
            return Outcome::refused(self, refusal);
        }
        let frames = self.frames;
        let before = self.table.count;
        let mut left = [0.0f32; 1024];
        let mut right = [0.0f32; 1024];
        let mut ended = [0u64; 64];
        self.table = self.table.mix(
            frames, self.trem, samples, &mut left, &mut right, &mut ended,
        );
        self.frames = 0;
        render::put(&left, &right, frames, out);
        let count = before - self.table.count;
        Outcome::answered(self, Report { count, ended })
    }
}
