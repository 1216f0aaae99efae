// The start and the calls of a run of the code: each function is a method's call alone, and promises what the account
// asks of a start or of a call. `c_functions` has the same of the C functions: one by one, since each names the one call
// whose promise it carries over.

ghost use Rattle.model.specs.Types.{Control, Call};
ghost use Rattle.instrument.specs.Calls.{StartAs};
ghost use Rattle.account.specs.Methods.{Runs, PlanRuns, MixRuns};

use design::InstrumentDesign;
use instrument::{Instrument, Reply, Report};
use outcome::Outcome;

fn start(design: InstrumentDesign) -> Outcome<Instrument, ()>
    ensures { StartAs design result }
{
    Instrument::new(design)
}

fn note_on(s: Instrument, note: u8, velocity: f32, built: bool) -> Outcome<Instrument, Reply>
    ensures { Runs s (Call.note_on note velocity built) result }
{
    s.note_on(note, velocity, built)
}

fn note_off(s: Instrument, note: u8) -> Outcome<Instrument, Reply>
    ensures { Runs s (Call.control (Control.note_off note)) result }
{
    s.note_off(note)
}

fn pedal(s: Instrument, down: bool) -> Outcome<Instrument, Reply>
    ensures { Runs s (Call.control (Control.pedal down)) result }
{
    s.set_sustain(down)
}

fn bend(s: Instrument, factor: f32) -> Outcome<Instrument, Reply>
    ensures { Runs s (Call.control (Control.bend factor)) result }
{
    s.set_bend(factor)
}

fn brightness(s: Instrument, scale: f32) -> Outcome<Instrument, Reply>
    ensures { Runs s (Call.control (Control.brightness scale)) result }
{
    s.set_brightness(scale)
}

fn release(s: Instrument, handle: u64) -> Outcome<Instrument, Reply>
    ensures { Runs s (Call.control (Control.release handle)) result }
{
    s.release(handle)
}

fn all_off(s: Instrument) -> Outcome<Instrument, Reply>
    ensures { Runs s (Call.control Control.all_off) result }
{
    s.all_notes_off()
}

fn plan(
    s: Instrument,
    frames: usize,
    vibrato: f32,
    filter: f32,
    sine: f32,
    curve: &mut [f32],
) -> Outcome<Instrument, Reply>
    ensures { PlanRuns s frames vibrato filter sine curve.old curve.new result }
{
    s.plan(frames, vibrato, filter, sine, curve)
}

fn mix(s: Instrument, samples: &[f32], out: &mut [f32]) -> Outcome<Instrument, Report>
    ensures { MixRuns s samples.now out.old out.new result }
{
    s.mix(samples, out)
}
