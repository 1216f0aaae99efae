// The functions of the archive for a host in C or Rust: each is the call of `host` of its name, and promises what that promises.
// Here by name once more, since nothing can build on a static library.

#![tactic(auto)]

ghost use Rattle.std.specs.Prelude.{◌≡◌};
ghost use Rattle.model.specs.Types.{Control, Call};
ghost use Rattle.model.specs.Queries.{is_active, active_voices};
ghost use Rattle.wire.specs.Reads.{flag_of, model_of};
ghost use Rattle.host.specs.Said.{said_answer};
ghost use Rattle.host.specs.Hosted.{HostCallAs, HostPlanAs, HostMixAs, HostStartAs, HostVoiceAs, host_asked};

use host::{HostMixOutcome, HostOutcome, HostReply};
use wire::{HostDesign, HostState};

pub mod events;

// A mode that is none is a design number outside its limits, as no voices are.
#[unsafe(no_mangle)]
pub extern "C" fn cirstumbe_new(design: HostDesign) -> HostOutcome
    ensures { HostStartAs design result }
{
    host::cirstumbe_new(design)
}

// `built` is 0, or any other number for yes.
#[unsafe(no_mangle)]
pub extern "C" fn cirstumbe_note_on(
    h: HostState,
    note: u8,
    velocity: f32,
    built: u32,
) -> HostOutcome
    ensures { HostCallAs h (Call.note_on note velocity (flag_of built)) result }
{
    host::cirstumbe_note_on(h, note, velocity, built)
}

#[unsafe(no_mangle)]
pub extern "C" fn cirstumbe_note_off(h: HostState, note: u8) -> HostOutcome
    ensures { HostCallAs h (Call.control (Control.note_off note)) result }
{
    host::cirstumbe_note_off(h, note)
}

// `down` is 0, or any other number for yes.
#[unsafe(no_mangle)]
pub extern "C" fn cirstumbe_set_sustain(h: HostState, down: u32) -> HostOutcome
    ensures { HostCallAs h (Call.control (Control.pedal (flag_of down))) result }
{
    host::cirstumbe_set_sustain(h, down)
}

#[unsafe(no_mangle)]
pub extern "C" fn cirstumbe_set_bend(h: HostState, factor: f32) -> HostOutcome
    ensures { HostCallAs h (Call.control (Control.bend factor)) result }
{
    host::cirstumbe_set_bend(h, factor)
}

#[unsafe(no_mangle)]
pub extern "C" fn cirstumbe_set_brightness(h: HostState, scale: f32) -> HostOutcome
    ensures { HostCallAs h (Call.control (Control.brightness scale)) result }
{
    host::cirstumbe_set_brightness(h, scale)
}

#[unsafe(no_mangle)]
pub extern "C" fn cirstumbe_release(h: HostState, handle: u64) -> HostOutcome
    ensures { HostCallAs h (Call.control (Control.release handle)) result }
{
    host::cirstumbe_release(h, handle)
}

#[unsafe(no_mangle)]
pub extern "C" fn cirstumbe_all_notes_off(h: HostState) -> HostOutcome
    ensures { HostCallAs h (Call.control Control.all_off) result }
{
    host::cirstumbe_all_notes_off(h)
}

#[unsafe(no_mangle)]
pub extern "C" fn cirstumbe_plan(
    h: HostState,
    frames: usize,
    vibrato: f32,
    filter: f32,
    tremolo_sine: f32,
    curve: &mut [f32],
) -> HostOutcome
    ensures { HostPlanAs h frames vibrato filter tremolo_sine curve.old curve.new result }
{
    host::cirstumbe_plan(h, frames, vibrato, filter, tremolo_sine, curve)
}

#[unsafe(no_mangle)]
pub extern "C" fn cirstumbe_mix(h: HostState, samples: &[f32], out: &mut [f32]) -> HostMixOutcome
    ensures { HostMixAs h samples.now out.old out.new result }
{
    host::cirstumbe_mix(h, samples, out)
}

#[unsafe(no_mangle)]
pub extern "C" fn cirstumbe_is_active(h: HostState, handle: u64) -> HostReply
    ensures { result ≡ said_answer (host_asked h (is_active (model_of h) handle)) }
{
    host::cirstumbe_is_active(h, handle)
}

#[unsafe(no_mangle)]
pub extern "C" fn cirstumbe_active_voices(h: HostState) -> HostReply
    ensures { result ≡ said_answer (host_asked h (active_voices (model_of h))) }
{
    host::cirstumbe_active_voices(h)
}

#[unsafe(no_mangle)]
pub extern "C" fn cirstumbe_voice_of(h: HostState, note: u8) -> HostReply
    ensures { HostVoiceAs h note result }
{
    host::cirstumbe_voice_of(h, note)
}
