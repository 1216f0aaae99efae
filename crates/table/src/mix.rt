// Mix's pass over the voices (the Rust's `render_block`: its loop over the voices, then `retain`).

ghost use Rattle.std.specs.Prelude.{◌≡◌, set};
ghost use Rattle.table.specs.Mixes.{MixedTable};

use crate::Table;

// A handle in the report, where it has that place.
fn report(handle: u64, place: usize, ended: &mut [u64])
    ensures { ended.new ≡ set ended.old place handle }
{
    // No `get_mut`: of what is written through it the proof knows only the length.
    if place < ended.len() {
        ended[place] = handle;
    }
}

impl Table {
    // The samples of every copy go into both sides, for the frames of a block, 1,024 at most; each voice is as many
    // frames older. Those that have ended are reported and leave the table: one that goes on moves up where some
    // before it have ended. A voice whose samples are not all there, or whose sums have no place, is left as it is.
    pub fn mix(
        mut self,
        frames: usize,
        trem: f32,
        samples: &[f32],
        left: &mut [f32],
        right: &mut [f32],
        ended: &mut [u64],
    ) -> Table
        ensures { MixedTable frames trem self samples.now left.old right.old ended.old
            left.new right.new ended.new result }
    {
        let n = frames.min(1024);
        let count = self.count.min(64);
        let mut gone: usize = 0;
        let mut at: usize = 0;
        // By place: one that goes on is put where one that has ended stood.
        for i in 0..count {
            let v = self.voices[i];
            let env = render::add_voice(v, n, trem, samples, at, left, right);
            at = (at + n * v.copies_shown()).min(samples.len());
            self.voices[i].env = env;
            if !render::goes_on(env) {
                report(v.handle, gone, ended);
                gone += 1;
            } else if 0 < gone {
                self.voices[i - gone] = self.voices[i];
            }
        }
        self.count = count - gone;
        self
    }
}
