// The calls for a host in C or Rust: each reads the numbers of a state, makes the instrument's call and writes the numbers of the next one.

#![tactic(auto)]

ghost use Rattle.std.specs.Prelude.{◌≡◌, Ok, replicate};
ghost use Rattle.model.specs.Types.{Control, Call};
ghost use Rattle.model.specs.Queries.{is_active, active_voices};
ghost use Rattle.outcome.specs.Numbers.{number_of};
ghost use Rattle.instrument.specs.Calls.{reply_of};
ghost use Rattle.instrument.specs.declared.Instrument.{Instrument};
ghost use Rattle.instrument.specs.Asked.{active_of, voices_of, handle_of};
ghost use Rattle.instrument.specs.Plans.{PlannedAs};
ghost use Rattle.instrument.specs.Mixes.{mix_reply_of};
ghost use Rattle.wire.specs.Reads.{flag_of, model_of, ReadFrom};
ghost use Rattle.host.specs.Said.{saying, kind_of, refusing, said_of, report_of, said_start, said_answer};
ghost use Rattle.host.specs.Hosted.{Hosts, Makes, AskedBy, BegunAs, HostCallAs, HostPlanAs, HostMixAs, HostStartAs, HostVoiceAs, host_asked};

use design::InstrumentDesign;
use instrument::{Instrument, Reply, Report};
use outcome::{Outcome, Refusal};
use std::num::NonZeroU64;
use wire::{HostDesign, HostState};

pub mod events;

// What a reply says, in the order of the numbers that stand for it.
#[derive(Clone, Copy, Debug, PartialEq, Eq)]
enum Kind {
    Refused,
    Started,
    Silent,
    Kept,
    Off,
    Done,
    Released,
    Planned,
    Mixed,
    Ready,
    Active,
    Voices,
    Handle,
    NoHandle,
}

// What a call or a query replies. `kind` is a number, as C needs it: 0 refused, 1 started, 2 silent, 3 kept, 4 off, 5 done,
// 6 released, 7 planned, 8 mixed, 9 ready, 10 active, 11 voices, 12 handle, 13 no handle. What a kind does not name is 0.
#[repr(C)]
#[derive(Clone, Copy, Default)]
pub struct HostReply {
    pub kind: u32,
    // The number of the refusal.
    pub number: u32,
    pub handle: u64,
    // 0 for none, since an Option cannot cross.
    pub killed: u64,
    pub taken: u64,
    // Of off, released and active: 0 or 1.
    pub found: u32,
    // Of mixed, how many ended; of voices, how many there are.
    pub count: usize,
}

#[repr(C)]
#[derive(Clone, Copy)]
pub struct HostOutcome {
    pub reply: HostReply,
    pub state: HostState,
}

#[repr(C)]
#[derive(Clone, Copy)]
pub struct HostMixOutcome {
    pub reply: HostReply,
    // The handles that ended, with zeros behind: how many stands in the reply, since a slice cannot cross.
    pub ended: [u64; 64],
    pub state: HostState,
}

impl From<Kind> for HostReply {
    ghost from_gives = { λ kind r. r ≡ saying (kind_of kind) 0 0 0 0 0 0 };

    fn from(kind: Kind) -> HostReply {
        HostReply {
            kind: kind as u32,
            ..HostReply::default()
        }
    }
}

impl From<Refusal> for HostReply {
    ghost from_gives = { λ refusal r. r ≡ refusing (number_of refusal) };

    fn from(refusal: Refusal) -> HostReply {
        HostReply {
            number: refusal.number().into(),
            ..Kind::Refused.into()
        }
    }
}

impl From<Reply> for HostReply {
    ghost from_gives = { λ reply r. r ≡ said_of (reply_of (Ok reply)) };

    fn from(reply: Reply) -> HostReply {
        match reply {
            Reply::Started {
                handle,
                killed,
                taken,
            } => HostReply {
                handle,
                killed: killed.map_or(0, NonZeroU64::get),
                taken: taken.map_or(0, NonZeroU64::get),
                ..Kind::Started.into()
            },
            Reply::Silent(handle) => HostReply {
                handle,
                ..Kind::Silent.into()
            },
            Reply::Kept(handle) => HostReply {
                handle,
                ..Kind::Kept.into()
            },
            Reply::Off(found) => HostReply {
                found: found.into(),
                ..Kind::Off.into()
            },
            Reply::Done => Kind::Done.into(),
            Reply::Released(found) => HostReply {
                found: found.into(),
                ..Kind::Released.into()
            },
            Reply::Planned => Kind::Planned.into(),
        }
    }
}

// Of a start.
impl From<Result<(), Refusal>> for HostReply {
    ghost from_gives = { λ reply r. r ≡ said_start reply };

    fn from(reply: Result<(), Refusal>) -> HostReply {
        match reply {
            Ok(()) => Kind::Ready.into(),
            Err(refusal) => refusal.into(),
        }
    }
}

// Of `is_active`.
impl From<Result<bool, Refusal>> for HostReply {
    ghost from_gives = { λ answer r. r ≡ said_answer (active_of answer) };

    fn from(answer: Result<bool, Refusal>) -> HostReply {
        match answer {
            Ok(found) => HostReply {
                found: found.into(),
                ..Kind::Active.into()
            },
            Err(refusal) => refusal.into(),
        }
    }
}

// Of `active_voices`.
impl From<Result<usize, Refusal>> for HostReply {
    ghost from_gives = { λ answer r. r ≡ said_answer (voices_of answer) };

    fn from(answer: Result<usize, Refusal>) -> HostReply {
        match answer {
            Ok(count) => HostReply {
                count,
                ..Kind::Voices.into()
            },
            Err(refusal) => refusal.into(),
        }
    }
}

// Of `voice_of`.
impl From<Result<Option<u64>, Refusal>> for HostReply {
    ghost from_gives = { λ answer r. r ≡ said_answer (handle_of answer) };

    fn from(answer: Result<Option<u64>, Refusal>) -> HostReply {
        match answer {
            Ok(Some(handle)) => HostReply {
                handle,
                ..Kind::Handle.into()
            },
            Ok(None) => Kind::NoHandle.into(),
            Err(refusal) => refusal.into(),
        }
    }
}

// The very numbers given on a refusal, else those of the next state. Here and below by reference, and
// inlined where nothing else is said: each spares copies of all the numbers.
#[inline(always)]
fn outcome(h: &HostState, made: &Outcome<Instrument, Reply>) -> HostOutcome
    ensures { Hosts h.now (reply_of made.now.reply) made.now.state result.reply result.state }
{
    match made.reply {
        Ok(reply) => HostOutcome {
            reply: reply.into(),
            state: HostState::from(&made.state),
        },
        Err(refusal) => refused(h, refusal),
    }
}

#[inline(always)]
fn refused(h: &HostState, refusal: Refusal) -> HostOutcome
    ensures { result ≡ record { reply = refusing (number_of refusal); state = h.now } }
{
    HostOutcome {
        reply: refusal.into(),
        state: *h,
    }
}

// By itself, so that the state that was read needs no stack behind the call.
#[inline(always)]
fn called<F: FnOnce(Instrument) -> Outcome<Instrument, Reply>>(
    h: &HostState,
    call: F,
) -> Outcome<Instrument, Reply>
    requires { F.IsAlwaysCallable call }
    ensures { (s : Instrument) × ReadFrom h.now s × F.post call s result }
{
    call(h.state())
}

// The call on the state that the numbers stand for; numbers that stand for none are refused.
#[inline(always)]
fn hosted<F: FnOnce(Instrument) -> Outcome<Instrument, Reply>>(
    h: &HostState,
    call: F,
) -> HostOutcome
    requires { F.IsAlwaysCallable call }
    ensures { (c : Call) → Makes (F.post call) c → HostCallAs h.now c result }
{
    if !h.is_numbered() {
        return refused(h, Refusal::Malformed);
    }
    outcome(h, &called(h, call))
}

// As `hosted`, for a query.
#[inline(never)]
fn asked<F: FnOnce(Instrument) -> HostReply>(h: &HostState, ask: F) -> HostReply
    requires { F.IsAlwaysCallable ask }
    ensures { AskedBy (F.post ask) h.now result }
{
    if !h.is_numbered() {
        return Refusal::Malformed.into();
    }
    ask(h.state())
}

#[tactic(auto, unfolding(model::specs::Start::start_of))]
fn begin(design: InstrumentDesign) -> HostOutcome
    ensures { BegunAs design result }
{
    let made = Instrument::new(design);
    HostOutcome {
        reply: made.reply.into(),
        state: HostState::from(&made.state),
    }
}

// A mode that is none is a design number outside its limits, as no voices are.
#[tactic(auto, using(crate::proofs::Laws::unfit_reply, crate::proofs::Laws::unfit_design), unfolding(crate::specs::Hosted::host_design_reply, crate::specs::Hosted::host_accepted))]
pub fn cirstumbe_new(design: HostDesign) -> HostOutcome
    ensures { HostStartAs design result }
{
    let read = InstrumentDesign::from(design);
    if design.is_numbered() {
        return begin(read);
    }
    begin(InstrumentDesign {
        max_voices: 0,
        ..read
    })
}

// Plan's steps, apart for the stack too.
#[inline(never)]
fn planned(
    s: Instrument,
    frames: usize,
    vibrato: f32,
    filter: f32,
    sine: f32,
    curve: &mut [f32],
) -> Outcome<Instrument, Reply>
    ensures { PlannedAs s frames vibrato filter sine curve.old curve.new result }
{
    s.plan(frames, vibrato, filter, sine, curve)
}

// `built` is 0, or any other number for yes.
pub fn cirstumbe_note_on(h: HostState, note: u8, velocity: f32, built: u32) -> HostOutcome
    ensures { HostCallAs h (Call.note_on note velocity (flag_of built)) result }
{
    hosted(&h, |s| s.note_on(note, velocity, built != 0))
}

pub fn cirstumbe_note_off(h: HostState, note: u8) -> HostOutcome
    ensures { HostCallAs h (Call.control (Control.note_off note)) result }
{
    hosted(&h, |s| s.note_off(note))
}

// `down` is 0, or any other number for yes.
pub fn cirstumbe_set_sustain(h: HostState, down: u32) -> HostOutcome
    ensures { HostCallAs h (Call.control (Control.pedal (flag_of down))) result }
{
    hosted(&h, |s| s.set_sustain(down != 0))
}

pub fn cirstumbe_set_bend(h: HostState, factor: f32) -> HostOutcome
    ensures { HostCallAs h (Call.control (Control.bend factor)) result }
{
    hosted(&h, |s| s.set_bend(factor))
}

pub fn cirstumbe_set_brightness(h: HostState, scale: f32) -> HostOutcome
    ensures { HostCallAs h (Call.control (Control.brightness scale)) result }
{
    hosted(&h, |s| s.set_brightness(scale))
}

pub fn cirstumbe_release(h: HostState, handle: u64) -> HostOutcome
    ensures { HostCallAs h (Call.control (Control.release handle)) result }
{
    hosted(&h, |s| s.release(handle))
}

pub fn cirstumbe_all_notes_off(h: HostState) -> HostOutcome
    ensures { HostCallAs h (Call.control Control.all_off) result }
{
    hosted(&h, |s| s.all_notes_off())
}

pub fn cirstumbe_plan(
    h: HostState,
    frames: usize,
    vibrato: f32,
    filter: f32,
    tremolo_sine: f32,
    curve: &mut [f32],
) -> HostOutcome
    ensures { HostPlanAs h frames vibrato filter tremolo_sine curve.old curve.new result }
{
    // Not by `hosted`: the contract of a closure that is handed on says nothing of the memory that it is lent.
    if !h.is_numbered() {
        return refused(&h, Refusal::Malformed);
    }
    let made = planned(h.state(), frames, vibrato, filter, tremolo_sine, curve);
    outcome(&h, &made)
}

// The very numbers given and no report on a refusal, else those of the next state with the report.
#[inline(always)]
fn mix_outcome(h: &HostState, made: &Outcome<Instrument, Report>) -> HostMixOutcome
    ensures reported { result.ended ≡ report_of (mix_reply_of made.now.reply) }
    ensures hosted { Hosts h.now (mix_reply_of made.now.reply) made.now.state result.reply result.state }
{
    match made.reply {
        Ok(report) => {
            let ended = report.ended;
            HostMixOutcome {
                reply: HostReply {
                    count: report.count,
                    ..Kind::Mixed.into()
                },
                ended,
                state: HostState::from(&made.state),
            }
        }
        Err(refusal) => unmixed(h, refusal),
    }
}

#[inline(always)]
fn unmixed(h: &HostState, refusal: Refusal) -> HostMixOutcome
    ensures { result ≡ record { reply = refusing (number_of refusal); ended = replicate 64 0; state = h.now } }
{
    HostMixOutcome {
        reply: refusal.into(),
        ended: [0; 64],
        state: *h,
    }
}

// Not by `hosted`, as Plan.
pub fn cirstumbe_mix(h: HostState, samples: &[f32], out: &mut [f32]) -> HostMixOutcome
    ensures { HostMixAs h samples.now out.old out.new result }
{
    if !h.is_numbered() {
        return unmixed(&h, Refusal::Malformed);
    }
    mix_outcome(&h, &h.state().mix(samples, out))
}

#[tactic(auto, unfolding(crate::specs::Hosted::host_asked, instrument::specs::Asked::asked_of))]
pub fn cirstumbe_is_active(h: HostState, handle: u64) -> HostReply
    ensures { result ≡ said_answer (host_asked h (is_active (model_of h) handle)) }
{
    asked(&h, |s| s.is_active(handle).into())
}

#[tactic(auto, unfolding(crate::specs::Hosted::host_asked, instrument::specs::Asked::asked_of))]
pub fn cirstumbe_active_voices(h: HostState) -> HostReply
    ensures { result ≡ said_answer (host_asked h (active_voices (model_of h))) }
{
    asked(&h, |s| s.active_voices().into())
}

pub fn cirstumbe_voice_of(h: HostState, note: u8) -> HostReply
    ensures { HostVoiceAs h note result }
{
    asked(&h, |s| s.voice_of(note).into())
}
