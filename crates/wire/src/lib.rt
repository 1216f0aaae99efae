// The state as a host in C or Rust keeps it: numbers alone, since an enum cannot cross, and arrays with a count beside,
// since a slice cannot. A number stands for each mode, stage and yes or no.

#![tactic(auto)]

ghost use Rattle.std.specs.Prelude.{◌≡◌, ◌<◌, take};
ghost use Rattle.std.specs.List.{AllZip};
ghost use Rattle.voice.specs.View.{seen};
ghost use Rattle.wire.specs.Reads.{mode_of, stage_of, design_of, env_of, copy_of, seen_of, ReadAs, ReadFrom};

use design::{Adsr, InstrumentDesign, Modulation, PlayMode};
use envelope::{EnvGen, Stage};
use held::Held;
use instrument::Instrument;
use note::Note;
use outcome::Refusal;
use stream::UnisonCopy;
use table::Table;
use voice::Voice;

pub mod numbers;

#[repr(C)]
#[derive(Clone, Copy)]
pub struct HostDesign {
    pub sample_rate: u32,
    pub max_voices: u32,
    // 0 Poly, 1 Mono, 2 Mono with legato.
    pub mode: u32,
    pub unison: u32,
    pub unison_width: f32,
    pub a: f32,
    pub d: f32,
    pub s: f32,
    pub r: f32,
    pub glide: f32,
    pub vibrato_rate: f32,
    pub vibrato_cents: f32,
    pub tremolo_rate: f32,
    pub tremolo_depth: f32,
    pub filter_rate: f32,
    pub filter_octaves: f32,
}

#[repr(C)]
#[derive(Clone, Copy)]
pub struct HostCopy {
    pub l: f32,
    pub r: f32,
    pub pitch: f32,
    pub pitch_target: f32,
    pub glide: f32,
    pub bend: f32,
    // Whether a cutoff was set: 0 or 1. At 0 `cutoff` means nothing.
    pub cutoff_set: u32,
    pub cutoff: f32,
}

#[repr(C)]
#[derive(Clone, Copy)]
pub struct HostEnv {
    pub a: f32,
    pub d: f32,
    pub s: f32,
    pub r: f32,
    pub sr: f32,
    // 0 Idle, 1 Attack, 2 Decay, 3 Sustain, 4 Release.
    pub stage: u32,
    pub level: f32,
    pub rel_from: f32,
}

#[repr(C)]
#[derive(Clone, Copy)]
pub struct HostVoice {
    pub handle: u64,
    pub copy_count: usize,
    pub copies: [HostCopy; 8],
    pub env: HostEnv,
    pub built_hz: f32,
    pub gain: f32,
    // 0 or 1.
    pub releasing: u32,
    pub sustained: u32,
    pub note: u8,
}

#[repr(C)]
#[derive(Clone, Copy)]
pub struct HostState {
    pub design: HostDesign,
    pub voices: [HostVoice; 64],
    pub voice_count: usize,
    pub next_handle: u64,
    // 0 or 1.
    pub sustain: u32,
    pub bend: f32,
    pub brightness: f32,
    pub vib_phase: f32,
    pub flt_phase: f32,
    pub trem_phase: f32,
    pub trem: f32,
    pub held: [u8; 256],
    pub held_count: usize,
    pub frames: usize,
}

// No `From`: the numbers are the host's alone, and the mode is `design`'s.
#[tactic(auto, unfolding(crate::specs::Reads::mode_of))]
fn mode_of(number: u32) -> PlayMode
    ensures { result ≡ mode_of number }
{
    match number {
        0 => PlayMode::Poly,
        1 => PlayMode::Mono { legato: false },
        _ => PlayMode::Mono { legato: true },
    }
}

// No `From` either.
#[tactic(auto, unfolding(crate::specs::Reads::stage_of))]
fn stage_of(number: u32) -> Stage
    ensures { result ≡ stage_of number }
{
    match number {
        0 => Stage::Idle,
        1 => Stage::Attack,
        2 => Stage::Decay,
        3 => Stage::Sustain,
        _ => Stage::Release,
    }
}

// The first `count` items, each made into another. What stands behind them means nothing. By index: of what goes through
// a zip of `iter_mut` a proof knows nothing, and the library's `map` would make what stands behind the count too.
fn first_made<A: Copy, B: Copy, const N: usize, F: Fn(A) -> B>(
    items: &[A; N],
    count: usize,
    rest: B,
    make: F,
) -> [B; N]
    requires { F.IsAlwaysCallable make }
    ensures { AllZip (F.post make) (take count items.now) (take count result) }
{
    let mut made = [rest; N];
    for j in 0..count.min(N) {
        made[j] = make(items[j]);
    }
    made
}

// Apart, for what stands behind a count: in place, its parts would be written to every place of the array one by one.
#[inline(never)]
fn made_apart<A, B: From<A>>(item: A) -> B
    ensures { B.from_gives item result }
{
    B::from(item)
}

impl From<HostDesign> for InstrumentDesign {
    ghost from_gives = { λ d r. r ≡ design_of d };

    #[tactic(auto, unfolding(crate::specs::Reads::design_of))]
    fn from(d: HostDesign) -> InstrumentDesign {
        InstrumentDesign {
            sample_rate: d.sample_rate,
            max_voices: d.max_voices,
            mode: mode_of(d.mode),
            unison: d.unison,
            unison_width: d.unison_width,
            amp: Adsr {
                a: d.a,
                d: d.d,
                s: d.s,
                r: d.r,
            },
            glide: d.glide,
            modulation: Modulation {
                vibrato_rate: d.vibrato_rate,
                vibrato_cents: d.vibrato_cents,
                tremolo_rate: d.tremolo_rate,
                tremolo_depth: d.tremolo_depth,
                filter_rate: d.filter_rate,
                filter_octaves: d.filter_octaves,
            },
        }
    }
}

impl From<HostEnv> for EnvGen {
    ghost from_gives = { λ e r. r ≡ env_of e };

    #[tactic(auto, unfolding(crate::specs::Reads::env_of))]
    fn from(e: HostEnv) -> EnvGen {
        EnvGen {
            a: e.a,
            d: e.d,
            s: e.s,
            r: e.r,
            sr: e.sr,
            stage: stage_of(e.stage),
            level: e.level,
            rel_from: e.rel_from,
        }
    }
}

impl From<HostCopy> for UnisonCopy {
    ghost from_gives = { λ c r. r ≡ copy_of c };

    #[tactic(auto, unfolding(crate::specs::Reads::copy_of, crate::specs::Reads::cutoff_of))]
    fn from(c: HostCopy) -> UnisonCopy {
        UnisonCopy {
            l: c.l,
            r: c.r,
            pitch: c.pitch,
            pitch_target: c.pitch_target,
            glide: c.glide,
            bend: c.bend,
            cutoff: (c.cutoff_set != 0).then_some(c.cutoff),
        }
    }
}

impl From<HostVoice> for Voice {
    ghost from_gives = { λ h v. seen v ≡ seen_of h };

    // Inlined, so that `first_made` makes each voice where it stands; the way back too.
    #[inline(always)]
    fn from(h: HostVoice) -> Voice {
        Voice {
            handle: h.handle,
            note: Note(h.note),
            copies: first_made(
                &h.copies,
                h.copy_count,
                UnisonCopy::from(h.copies[0]),
                UnisonCopy::from,
            ),
            copy_count: h.copy_count,
            built_hz: h.built_hz,
            env: h.env.into(),
            gain: h.gain,
            releasing: h.releasing != 0,
            sustained: h.sustained != 0,
        }
    }
}

// By reference, which spares a copy of all the numbers, as does the way back.
impl HostState {
    // The state that the numbers stand for; whether they stand for one is `is_numbered`.
    pub fn state(&self) -> Instrument
        ensures { ReadFrom self.now result }
    {
        Instrument {
            design: self.design.into(),
            table: Table {
                voices: first_made(
                    &self.voices,
                    self.voice_count,
                    made_apart(self.voices[0]),
                    Voice::from,
                ),
                count: self.voice_count,
            },
            next_handle: self.next_handle,
            sustain: self.sustain != 0,
            bend: self.bend,
            brightness: self.brightness,
            vib_phase: self.vib_phase,
            flt_phase: self.flt_phase,
            trem_phase: self.trem_phase,
            trem: self.trem,
            held: Held {
                notes: first_made(&self.held, self.held_count, Note(0), |note: u8| Note(note)),
                count: self.held_count,
            },
            frames: self.frames,
        }
    }
}

impl TryFrom<&HostState> for Instrument {
    type Error = Refusal;

    ghost try_from_gives = { λ h r. ReadAs h.now r };

    fn try_from(h: &HostState) -> Result<Instrument, Refusal> {
        if h.is_numbered() {
            Ok(h.state())
        } else {
            Err(Refusal::Malformed)
        }
    }
}
