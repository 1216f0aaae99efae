// Which numbers stand for a state, and the numbers of a state.

ghost use Rattle.std.specs.Prelude.{◌≡◌, true, leb};
ghost use Rattle.voice.specs.View.{seen};
ghost use Rattle.wire.specs.Reads.{mode_of, stage_of, design_of, env_of, copy_of, seen_of, WrittenFrom};
ghost use Rattle.wire.specs.Reads.{mode_numbered, stage_numbered, copy_numbered, voice_numbered, numbered};

use crate::{HostCopy, HostDesign, HostEnv, HostState, HostVoice, first_made, made_apart};
use design::{InstrumentDesign, PlayMode};
use envelope::{EnvGen, Stage};
use instrument::Instrument;
use note::Note;
use stream::UnisonCopy;
use voice::Voice;

impl HostDesign {
    // Whether the number names a mode.
    pub fn is_numbered(&self) -> bool
        ensures { result ≡ mode_numbered self.now }
    {
        self.mode <= 2
    }
}

impl HostEnv {
    // Whether the number names a stage.
    pub fn is_numbered(&self) -> bool
        ensures { result ≡ stage_numbered self.now }
    {
        self.stage <= 4
    }
}

impl HostVoice {
    #[tactic(auto, unfolding(crate::specs::Reads::voice_numbered))]
    fn is_numbered(&self) -> bool
        ensures { result ≡ voice_numbered self.now }
    {
        self.copy_count <= 8
            && self.env.is_numbered()
            && self.releasing <= 1
            && self.sustained <= 1
            && self
                .copies
                .iter()
                .take(self.copy_count)
                .all(|c| c.cutoff_set <= 1)
    }
}

impl HostState {
    // Whether every count lies within its array, and every number up to the counts names a mode, a stage, or yes or no.
    // Not inlined, since its caller would copy the numbers for it.
    #[tactic(auto, unfolding(crate::specs::Reads::numbered))]
    #[inline(never)]
    pub fn is_numbered(&self) -> bool
        ensures { result ≡ numbered self.now }
    {
        self.voice_count <= 64
            && self.held_count <= 256
            && self.design.is_numbered()
            && self.sustain <= 1
            && self
                .voices
                .iter()
                .take(self.voice_count)
                .all(HostVoice::is_numbered)
    }
}

// No `From`, as with the reading.
#[tactic(auto, unfolding(crate::specs::Reads::mode_of))]
fn mode_number(mode: PlayMode) -> u32
    ensures { (mode_of result ≡ mode) × (leb result 2 ≡ true) }
{
    match mode {
        PlayMode::Poly => 0,
        PlayMode::Mono { legato: false } => 1,
        PlayMode::Mono { legato: true } => 2,
    }
}

impl From<InstrumentDesign> for HostDesign {
    ghost from_gives = { λ d r. (design_of r ≡ d) × (mode_numbered r ≡ true) };

    #[tactic(auto, unfolding(crate::specs::Reads::design_of))]
    fn from(d: InstrumentDesign) -> HostDesign {
        HostDesign {
            sample_rate: d.sample_rate,
            max_voices: d.max_voices,
            mode: mode_number(d.mode),
            unison: d.unison,
            unison_width: d.unison_width,
            a: d.amp.a,
            d: d.amp.d,
            s: d.amp.s,
            r: d.amp.r,
            glide: d.glide,
            vibrato_rate: d.modulation.vibrato_rate,
            vibrato_cents: d.modulation.vibrato_cents,
            tremolo_rate: d.modulation.tremolo_rate,
            tremolo_depth: d.modulation.tremolo_depth,
            filter_rate: d.modulation.filter_rate,
            filter_octaves: d.modulation.filter_octaves,
        }
    }
}

// By a name, since its promise is more than the cast: read back it gives the stage.
#[tactic(auto, unfolding(crate::specs::Reads::stage_of))]
fn stage_number(stage: Stage) -> u32
    ensures { (stage_of result ≡ stage) × (leb result 4 ≡ true) }
{
    stage as u32
}

impl From<EnvGen> for HostEnv {
    ghost from_gives = { λ e r. (env_of r ≡ e) × (stage_numbered r ≡ true) };

    #[tactic(auto, unfolding(crate::specs::Reads::env_of))]
    fn from(e: EnvGen) -> HostEnv {
        HostEnv {
            a: e.a,
            d: e.d,
            s: e.s,
            r: e.r,
            sr: e.sr,
            stage: stage_number(e.stage),
            level: e.level,
            rel_from: e.rel_from,
        }
    }
}

impl From<UnisonCopy> for HostCopy {
    ghost from_gives = { λ c r. (copy_of r ≡ c) × (copy_numbered r ≡ true) };

    #[tactic(auto, unfolding(crate::specs::Reads::copy_of, crate::specs::Reads::cutoff_of))]
    fn from(c: UnisonCopy) -> HostCopy {
        let (cutoff_set, cutoff) = match c.cutoff {
            None => (0, 0.0),
            Some(x) => (1, x),
        };
        HostCopy {
            l: c.l,
            r: c.r,
            pitch: c.pitch,
            pitch_target: c.pitch_target,
            glide: c.glide,
            bend: c.bend,
            cutoff_set,
            cutoff,
        }
    }
}

impl From<Voice> for HostVoice {
    ghost from_gives = { λ v r. (seen_of r ≡ seen v) × (voice_numbered r ≡ leb v.copy_count 8) };

    #[inline(always)]
    fn from(v: Voice) -> HostVoice {
        HostVoice {
            handle: v.handle,
            copy_count: v.copy_count,
            copies: first_made(
                &v.copies,
                v.copy_count,
                HostCopy::from(v.copies[0]),
                HostCopy::from,
            ),
            env: v.env.into(),
            built_hz: v.built_hz,
            gain: v.gain,
            releasing: v.releasing.into(),
            sustained: v.sustained.into(),
            note: v.note.0,
        }
    }
}

// The numbers of a state, up to its counts.
impl From<&Instrument> for HostState {
    ghost from_gives = { λ s r. WrittenFrom s.now r };

    fn from(s: &Instrument) -> HostState {
        HostState {
            design: s.design.into(),
            voices: first_made(
                &s.table.voices,
                s.table.count,
                made_apart(s.table.voices[0]),
                HostVoice::from,
            ),
            voice_count: s.table.count,
            next_handle: s.next_handle,
            sustain: s.sustain.into(),
            bend: s.bend,
            brightness: s.brightness,
            vib_phase: s.vib_phase,
            flt_phase: s.flt_phase,
            trem_phase: s.trem_phase,
            trem: s.trem,
            held: first_made(&s.held.notes, s.held.count, 0, |note: Note| note.0),
            held_count: s.held.count,
            frames: s.frames,
        }
    }
}
