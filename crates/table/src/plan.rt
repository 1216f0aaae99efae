// Plan's pass over the voices (the Rust's `glide_block` of every copy).

ghost use Rattle.table.specs.Plans.{GlidedTable};

use crate::Table;
use curves::{glide_voice, stands, write_standing};

impl Table {
    // Every voice glides over the frames of a block, 1,024 at most, and its copies fill its part of the curve.
    // Where the curve ends before that part does, voice and part are left as they are.
    pub fn glide(mut self, frames: usize, curve: &mut [f32]) -> Table
        ensures { GlidedTable frames self curve.old curve.new result }
    {
        let n = frames.min(1024);
        let count = self.count.min(64);
        let mut at: usize = 0;
        // By place: of a slice of the field that a loop writes, the proof knows nothing afterwards.
        for i in 0..count {
            let v = self.voices[i];
            let end = (at + n * v.copies_shown()).min(curve.len());
            // A voice that stands need not be put back.
            if stands(v) {
                write_standing(v, n, &mut curve[at..end]);
            } else {
                self.voices[i] = glide_voice(v, n, &mut curve[at..end]);
            }
            at = end;
        }
        self.count = count;
        self
    }
}
