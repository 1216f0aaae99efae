// Plan and Mix, over lent places that hold one mark before.

ghost use Rattle.std.specs.Prelude.{◌≤◌, IfSome};

use crate::ask::{Lend, Mix, Plan};
use crate::{Session, said};
use instrument::Instrument;
use outcome::Refusal;
use patterns::{Page, bits, sums};

// All copies of so many voices; none beyond the size of a table. The bounds stand at each of the four: a type of them
// would be made and taken apart at once.
fn rows(voices: usize, copies: u32) -> Option<usize>
    ensures { IfSome result (λ n. n ≤ 512) }
{
    if 64 < voices || 8 < copies {
        return None;
    }
    Some(voices * copies as usize)
}

// The numbers that a block wants, if it is not too long.
fn wanted(frames: usize, rows: usize) -> Option<usize>
    requires { rows ≤ 512 }
    ensures { IfSome result (λ n. n ≤ 524_288) }
{
    if 1024 < frames {
        return None;
    }
    Some(frames * rows)
}

fn wanted_by(s: &Instrument, frames: usize) -> Option<usize>
    ensures { IfSome result (λ n. n ≤ 524_288) }
{
    wanted(frames, rows(s.table.count, s.design.copies())?)
}

// How many numbers are lent where so many are wanted. One fewer than none is one. A block beyond the limits wants none:
// it is refused whatever is lent.
fn lent(wanted: Option<usize>, lend: Lend) -> usize
    requires { IfSome wanted (λ n. n ≤ 524_288) }
{
    let wanted = wanted.unwrap_or(0);
    match lend {
        Lend::Exact => wanted,
        Lend::Fewer if 0 < wanted => wanted - 1,
        Lend::More | Lend::Fewer => wanted + 1,
    }
}

// A refusal, and a line more where a lent place lost its mark.
fn refused(page: &mut Page, refusal: Refusal, places: &[f32]) {
    said::refused(page, refusal);
    if !sums::is_marked(places) {
        page.put(b"(touched)\n", &[]);
    }
}

impl Session {
    // The numbers of a block, or their checksum.
    fn block(&self, page: &mut Page, xs: &[f32]) {
        if self.numbers {
            page.put_list(b'W', xs, |x| bits(*x));
        } else {
            page.put(b" X", &[sums::sum(xs)]);
        }
    }

    fn planned(&self, page: &mut Page, curve: &[f32]) {
        page.put(b"(planned D", &[curve.len() as u64]);
        self.block(page, curve);
        page.put(b")\n", &[]);
    }

    // Nothing is done where `curve` has not the room that the block wants.
    pub fn plan(&mut self, p: Plan, curve: &mut [f32], page: &mut Page) {
        let n = lent(wanted_by(&self.instrument, p.frames), p.lend);
        let Some(curve) = curve.get_mut(..n) else {
            return;
        };
        sums::mark(curve);
        let o = self
            .instrument
            .plan(p.frames, p.vibrato, p.filter, p.sine, curve);
        self.instrument = o.state;
        match o.reply {
            Ok(_) => self.planned(page, curve),
            Err(refusal) => refused(page, refusal, curve),
        }
    }

    fn mixed(&self, page: &mut Page, stereo: &[f32], ended: &[u64]) {
        page.put(b"(mixed D", &[stereo.len() as u64 / 2]);
        self.block(page, stereo);
        page.put_list(b'D', ended, |handle| *handle);
        page.put(b")\n", &[]);
    }

    // Nothing is done where the lent memory has not the room that the block wants.
    pub fn mix(&mut self, m: Mix, samples: &mut [f32], stereo: &mut [f32], page: &mut Page) {
        let frames = self.instrument.frames;
        let n = lent(wanted_by(&self.instrument, frames), m.samples);
        let k = lent(wanted(frames, 2), m.stereo);
        let Some(samples) = samples.get_mut(..n) else {
            return;
        };
        let Some(stereo) = stereo.get_mut(..k) else {
            return;
        };
        sums::fill(samples, m.source, m.seed);
        sums::mark(stereo);
        let o = self.instrument.mix(samples, stereo);
        self.instrument = o.state;
        match o.reply {
            Ok(report) => {
                let ended = &report.ended[..report.count.min(64)];
                self.mixed(page, stereo, ended)
            }
            Err(refusal) => refused(page, refusal, stereo),
        }
    }
}
