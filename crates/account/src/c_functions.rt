// The start and the calls of a run of the C functions, as `host` has them and `host_c` exports them: each function is
// the call of one alone, and promises what the account asks of a start or of a call.

ghost use Rattle.model.specs.Types.{Control, Call};
ghost use Rattle.wire.specs.Reads.{flag_of};
ghost use Rattle.host.specs.Hosted.{HostStartAs};
ghost use Rattle.account.specs.Host.{HostRuns, HostPlanRuns, HostMixRuns};

use host::{HostMixOutcome, HostOutcome};
use wire::{HostDesign, HostState};

fn start(design: HostDesign) -> HostOutcome
    ensures { HostStartAs design result }
{
    host::cirstumbe_new(design)
}

fn note_on(h: HostState, note: u8, velocity: f32, built: u32) -> HostOutcome
    ensures { HostRuns h (Call.note_on note velocity (flag_of built)) result }
{
    host::cirstumbe_note_on(h, note, velocity, built)
}

fn note_off(h: HostState, note: u8) -> HostOutcome
    ensures { HostRuns h (Call.control (Control.note_off note)) result }
{
    host::cirstumbe_note_off(h, note)
}

fn pedal(h: HostState, down: u32) -> HostOutcome
    ensures { HostRuns h (Call.control (Control.pedal (flag_of down))) result }
{
    host::cirstumbe_set_sustain(h, down)
}

fn bend(h: HostState, factor: f32) -> HostOutcome
    ensures { HostRuns h (Call.control (Control.bend factor)) result }
{
    host::cirstumbe_set_bend(h, factor)
}

fn brightness(h: HostState, scale: f32) -> HostOutcome
    ensures { HostRuns h (Call.control (Control.brightness scale)) result }
{
    host::cirstumbe_set_brightness(h, scale)
}

fn release(h: HostState, handle: u64) -> HostOutcome
    ensures { HostRuns h (Call.control (Control.release handle)) result }
{
    host::cirstumbe_release(h, handle)
}

fn all_off(h: HostState) -> HostOutcome
    ensures { HostRuns h (Call.control Control.all_off) result }
{
    host::cirstumbe_all_notes_off(h)
}

fn plan(
    h: HostState,
    frames: usize,
    vibrato: f32,
    filter: f32,
    sine: f32,
    curve: &mut [f32],
) -> HostOutcome
    ensures { HostPlanRuns h frames vibrato filter sine curve.old curve.new result }
{
    host::cirstumbe_plan(h, frames, vibrato, filter, sine, curve)
}

fn mix(h: HostState, samples: &[f32], out: &mut [f32]) -> HostMixOutcome
    ensures { HostMixRuns h samples.now out.old out.new result }
{
    host::cirstumbe_mix(h, samples, out)
}
