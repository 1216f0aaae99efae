// Whether two instrument states are the same up to their counts: what stands behind a count is not looked at.

#![tactic(auto)]

ghost use Rattle.std.specs.Prelude.{◌≡◌, ℕ, Float, List, Option, map};
ghost use Rattle.std.specs.Bool.{Decides};
ghost use Rattle.envelope.specs.declared.EnvGen.{EnvGen};
ghost use Rattle.envelope.specs.declared.Stage.{Stage};
ghost use Rattle.stream.specs.declared.UnisonCopy.{UnisonCopy};
ghost use Rattle.design.specs.declared.Adsr.{Adsr};
ghost use Rattle.design.specs.declared.InstrumentDesign.{InstrumentDesign};
ghost use Rattle.design.specs.declared.Modulation.{Modulation};
ghost use Rattle.design.specs.declared.PlayMode.{PlayMode};
ghost use Rattle.voice.specs.View.{Seen, seen};
ghost use Rattle.held.specs.View.{number_of_note};
ghost use Rattle.equal_states.specs.Same.{copies_shown, table_shown, held_shown, SameScales, Same, SameAs};

use design::{Adsr, InstrumentDesign, Modulation, PlayMode};
use envelope::{EnvGen, Stage};
use held::Held;
use instrument::Instrument;
use note::Note;
use stream::UnisonCopy;
use table::Table;
use voice::Voice;

// A part of a state, compared by what it shows. No derive: floats are compared by their bits, so that NaNs and zeros
// tell.
trait Alike {
    ghost Shown: { Type 0 };

    ghost shown: { Self → Shown };

    fn alike(self, other: Self) -> bool
        ensures { Decides result (shown self ≡ shown other) };
}

// Two slices, item by item.
fn all_alike<T: Alike + Copy>(a: &[T], b: &[T]) -> bool
    ensures { Decides result (map T.shown a.now ≡ map T.shown b.now) }
{
    a.len() == b.len() && a.iter().zip(b).all(|(x, y)| x.alike(*y))
}

// The counts as they stand, which may be beyond the arrays, and the items up to them.
fn counted_alike<T: Alike + Copy>(m: usize, a: &[T], n: usize, b: &[T]) -> bool
    ensures { Decides result (◌≡◌ {A = ℕ × List T.Shown} (m, map T.shown a.now) (n, map T.shown b.now)) }
{
    m == n && all_alike(a, b)
}

// By the bits: the zeros differ by their sign, and a NaN is any NaN.
impl Alike for f32 {
    ghost Shown = { Float };

    ghost shown = { λ x. x };

    fn alike(self, other: f32) -> bool {
        float32::to_bits(self) == float32::to_bits(other)
    }
}

impl Alike for Stage {
    ghost Shown = { Stage };

    ghost shown = { λ x. x };

    fn alike(self, other: Stage) -> bool {
        self == other
    }
}

impl Alike for EnvGen {
    ghost Shown = { EnvGen };

    ghost shown = { λ x. x };

    fn alike(self, other: EnvGen) -> bool {
        self.a.alike(other.a)
            && self.d.alike(other.d)
            && self.s.alike(other.s)
            && self.r.alike(other.r)
            && self.sr.alike(other.sr)
            && self.stage.alike(other.stage)
            && self.level.alike(other.level)
            && self.rel_from.alike(other.rel_from)
    }
}

impl Alike for Option<f32> {
    ghost Shown = { Option Float };

    ghost shown = { λ x. x };

    fn alike(self, other: Option<f32>) -> bool {
        match (self, other) {
            (None, None) => true,
            (Some(x), Some(y)) => x.alike(y),
            _ => false,
        }
    }
}

impl Alike for UnisonCopy {
    ghost Shown = { UnisonCopy };

    ghost shown = { λ x. x };

    fn alike(self, other: UnisonCopy) -> bool {
        self.l.alike(other.l)
            && self.r.alike(other.r)
            && self.pitch.alike(other.pitch)
            && self.pitch_target.alike(other.pitch_target)
            && self.glide.alike(other.glide)
            && self.bend.alike(other.bend)
            && self.cutoff.alike(other.cutoff)
    }
}

impl Alike for Note {
    ghost Shown = { ℕ };

    ghost shown = { number_of_note };

    fn alike(self, other: Note) -> bool {
        self.0 == other.0
    }
}

#[tactic(auto, using(crate::proofs::Prefixes::map_same), unfolding(voice::specs::View::shown))]
fn copies_alike(v: Voice, w: Voice) -> bool
    ensures { Decides result (copies_shown v ≡ copies_shown w) }
{
    counted_alike(v.copy_count, v.live_copies(), w.copy_count, w.live_copies())
}

impl Alike for Voice {
    ghost Shown = { Seen };

    ghost shown = { seen };

    #[tactic(auto, using(crate::proofs::Records::voice_same, crate::proofs::Records::voice_parts))]
    fn alike(self, other: Voice) -> bool {
        self.handle == other.handle
            && self.note.alike(other.note)
            && copies_alike(self, other)
            && self.built_hz.alike(other.built_hz)
            && self.env.alike(other.env)
            && self.gain.alike(other.gain)
            && self.releasing == other.releasing
            && self.sustained == other.sustained
    }
}

impl Alike for Table {
    ghost Shown = { ℕ × List Seen };

    ghost shown = { table_shown };

    fn alike(self, other: Table) -> bool {
        counted_alike(self.count, self.live(), other.count, other.live())
    }
}

impl Alike for Held {
    ghost Shown = { ℕ × List ℕ };

    ghost shown = { held_shown };

    fn alike(self, other: Held) -> bool {
        counted_alike(self.count, self.as_slice(), other.count, other.as_slice())
    }
}

impl Alike for PlayMode {
    ghost Shown = { PlayMode };

    ghost shown = { λ x. x };

    fn alike(self, other: PlayMode) -> bool {
        self == other
    }
}

impl Alike for Adsr {
    ghost Shown = { Adsr };

    ghost shown = { λ x. x };

    fn alike(self, other: Adsr) -> bool {
        self.a.alike(other.a)
            && self.d.alike(other.d)
            && self.s.alike(other.s)
            && self.r.alike(other.r)
    }
}

impl Alike for Modulation {
    ghost Shown = { Modulation };

    ghost shown = { λ x. x };

    fn alike(self, other: Modulation) -> bool {
        self.vibrato_rate.alike(other.vibrato_rate)
            && self.vibrato_cents.alike(other.vibrato_cents)
            && self.tremolo_rate.alike(other.tremolo_rate)
            && self.tremolo_depth.alike(other.tremolo_depth)
            && self.filter_rate.alike(other.filter_rate)
            && self.filter_octaves.alike(other.filter_octaves)
    }
}

impl Alike for InstrumentDesign {
    ghost Shown = { InstrumentDesign };

    ghost shown = { λ x. x };

    fn alike(self, other: InstrumentDesign) -> bool {
        self.sample_rate == other.sample_rate
            && self.max_voices == other.max_voices
            && self.mode.alike(other.mode)
            && self.unison == other.unison
            && self.unison_width.alike(other.unison_width)
            && self.amp.alike(other.amp)
            && self.glide.alike(other.glide)
            && self.modulation.alike(other.modulation)
    }
}

// The floats that stand in no table.
fn scales_same(a: Instrument, b: Instrument) -> bool
    ensures { Decides result (SameScales a b) }
{
    a.bend.alike(b.bend)
        && a.brightness.alike(b.brightness)
        && a.vib_phase.alike(b.vib_phase)
        && a.flt_phase.alike(b.flt_phase)
        && a.trem_phase.alike(b.trem_phase)
        && a.trem.alike(b.trem)
}

// Apart from `equal`, whose proof takes this answer whole, and not part by part.
#[tactic(auto, unfolding(instrument::specs::View::view))]
fn same(a: Instrument, b: Instrument) -> bool
    ensures { Decides result (Same a b) }
{
    a.design.alike(b.design)
        && a.table.alike(b.table)
        && a.next_handle == b.next_handle
        && a.sustain == b.sustain
        && scales_same(a, b)
        && a.held.alike(b.held)
        && a.frames == b.frames
}

// Whether two states are the same up to their counts; the counts are compared as they stand.
pub fn equal(a: Instrument, b: Instrument) -> bool
    ensures { SameAs a b result }
{
    same(a, b)
}
