// The envelope's tick and the MIDI step for a host in C or Rust.

ghost use Rattle.std.specs.Prelude.{◌≡◌};
ghost use Rattle.midi.specs.Steps.{cursor_at, stepped};
ghost use Rattle.host.specs.Events.{HostTickAs, event_of};

use host::events::{HostEnvOutcome, HostEvent};
use wire::HostEnv;

// One frame of an envelope; a stage that is none is refused.
#[unsafe(no_mangle)]
pub extern "C" fn cirstumbe_env_tick(env: HostEnv) -> HostEnvOutcome
    ensures { HostTickAs env result }
{
    host::events::cirstumbe_env_tick(env)
}

// The next event from a place with a running status, and the place and status behind it. They stand one by one, as C
// passes them.
#[unsafe(no_mangle)]
pub extern "C" fn cirstumbe_midi_step(stream: &[u8], place: usize, status: u8) -> HostEvent
    ensures { result ≡ event_of (stepped stream.now (cursor_at place status)) }
{
    host::events::cirstumbe_midi_step(stream, place, status)
}
