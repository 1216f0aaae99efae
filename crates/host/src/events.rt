// The envelope's tick and the MIDI step for a host.

ghost use Rattle.std.specs.Prelude.{◌≡◌};
ghost use Rattle.midi.specs.Steps.{cursor_at, stepped};
ghost use Rattle.float32.specs.Numbers.{zero};
ghost use Rattle.host.specs.Events.{HostTickAs, kind_of, event_at, event_of};

use envelope::EnvGen;
use midi::{Cursor, Event};
use outcome::{Outcome, Refusal};
use wire::HostEnv;

// Numbers, as C needs them: an enum and an Option cannot cross.
#[repr(C)]
#[derive(Clone, Copy)]
pub struct HostEnvOutcome {
    // 1 where the stage's number is none, else 0.
    pub number: u32,
    pub env: HostEnv,
}

// What a step finds, in the order of the numbers that stand for it.
#[derive(Clone, Copy, Debug, PartialEq, Eq)]
enum Kind {
    Refused,
    On,
    Off,
    Pedal,
    AllOff,
    Bend,
    Other,
    End,
}

// `kind`: 0 refused, 1 on, 2 off, 3 pedal, 4 all-off, 5 bend, 6 other, 7 end. What a kind does not name is 0.
// Numbers here too.
#[repr(C)]
#[derive(Clone, Copy, Default)]
pub struct HostEvent {
    pub kind: u32,
    // The number of the refusal.
    pub number: u32,
    pub place: usize,
    pub velocity: f32,
    pub bend: u32,
    // 0 or 1.
    pub down: u32,
    pub status: u8,
    pub note: u8,
}

impl HostEvent {
    fn at(cursor: Cursor, kind: Kind) -> HostEvent
        ensures { result ≡ event_at cursor (kind_of kind) 0 0 zero 0 0 }
    {
        HostEvent {
            kind: kind as u32,
            place: cursor.place,
            status: cursor.status,
            ..HostEvent::default()
        }
    }
}

// One frame of an envelope; a stage that is none is refused.
pub fn cirstumbe_env_tick(env: HostEnv) -> HostEnvOutcome
    ensures { HostTickAs env result }
{
    if !env.is_numbered() {
        return HostEnvOutcome {
            number: Refusal::Malformed.number().into(),
            env,
        };
    }
    HostEnvOutcome {
        number: 0,
        env: EnvGen::from(env).tick().into(),
    }
}

// What a step found, at the cursor behind it.
fn event_of(found: Outcome<Cursor, Option<Event>>) -> HostEvent
    ensures { result ≡ event_of found }
{
    let behind = found.state;
    match found.reply {
        Err(refusal) => HostEvent {
            number: refusal.number().into(),
            ..HostEvent::at(behind, Kind::Refused)
        },
        Ok(Some(Event::On(note, velocity))) => HostEvent {
            note,
            velocity,
            ..HostEvent::at(behind, Kind::On)
        },
        Ok(Some(Event::Off(note))) => HostEvent {
            note,
            ..HostEvent::at(behind, Kind::Off)
        },
        Ok(Some(Event::Pedal(down))) => HostEvent {
            down: down.into(),
            ..HostEvent::at(behind, Kind::Pedal)
        },
        Ok(Some(Event::AllOff)) => HostEvent::at(behind, Kind::AllOff),
        Ok(Some(Event::Bend(bend))) => HostEvent {
            bend: bend.into(),
            ..HostEvent::at(behind, Kind::Bend)
        },
        Ok(Some(Event::Other)) => HostEvent::at(behind, Kind::Other),
        Ok(None) => HostEvent::at(behind, Kind::End),
    }
}

// The next event from a place with a running status, and the place and status behind it. They stand one by one, as C
// passes them.
pub fn cirstumbe_midi_step(stream: &[u8], place: usize, status: u8) -> HostEvent
    ensures { result ≡ event_of (stepped stream.now (cursor_at place status)) }
{
    let found = midi::step(stream, Cursor { place, status });
    event_of(found)
}
