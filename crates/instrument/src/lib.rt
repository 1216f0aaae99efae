// The instrument (the Rust's instrument/mod.rs): the calls on it.

#![tactic(auto)]

ghost use Rattle.std.specs.Prelude.{◌≡◌, true, ◌<◌, ◌≤◌, ◌*◌, ◌==◌, Ok};
ghost use Rattle.design.specs.Accepted.{is_accepted, copies_of};
ghost use Rattle.model.specs.Types.{Control, Call};
ghost use Rattle.model.specs.Formed.{frames_fit, block_fits};
ghost use Rattle.model.specs.Laws.{TimesFit};
ghost use Rattle.model.specs.Start.{empty_state};
ghost use Rattle.model.specs.Queries.{is_active, active_voices};
ghost use Rattle.design.specs.declared.PlayMode.TheVariants.{Mono};
ghost use Rattle.model.specs.Notes.{mono_off, velocity_of, new_note, mono_on, new_handle_in};
ghost use Rattle.instrument.specs.View.{view, counted, formed as formed_state};
ghost use Rattle.instrument.specs.Calls.{StartAs, RepliesTold, last_handle, barred_by, Gives, OnAs, CallAs};
ghost use Rattle.instrument.specs.Levels.{StartLevels};
ghost use Rattle.instrument.specs.Asked.{active_of, voices_of, asked_of, VoiceAs};

use design::{InstrumentDesign, PlayMode};
use envelope::EnvGen;
use held::Held;
use lists::fills;
use note::Note;
use outcome::{Outcome, Refusal};
use std::num::NonZeroU64;
use stream::UnisonCopy;
use table::Table;
use voice::{Voice, new_voice};

mod mix;
mod plan;

#[derive(Clone, Copy)]
pub struct Instrument {
    pub design: InstrumentDesign,
    pub table: Table,
    pub next_handle: u64,
    // Sustain pedal: while down, note-offs wait for it.
    pub sustain: bool,
    // Pitch wheel as a frequency factor.
    pub bend: f32,
    pub brightness: f32,
    // Phases of the modulation, from 0 to 1.
    pub vib_phase: f32,
    pub flt_phase: f32,
    pub trem_phase: f32,
    // Present tremolo gain.
    pub trem: f32,
    // Notes held in Mono.
    pub held: Held,
    // Frames of the open block, 0 where none is open: a number, since the checks count with it.
    pub frames: usize,
}

// What a call replies.
#[derive(Clone, Copy)]
pub enum Reply {
    // A new handle with its voice, and the handles killed and taken out for it. No handle is 0: as a number 0 is none.
    Started {
        handle: u64,
        killed: Option<NonZeroU64>,
        taken: Option<NonZeroU64>,
    },
    // A new handle, and no voice.
    Silent(u64),
    // The Mono voice that goes on.
    Kept(u64),
    // Whether a voice or a held note was found.
    Off(bool),
    Done,
    Released(bool),
    Planned,
}

// What Mix reports: the voices that ended with the block, in an array with a count, since there is no heap.
#[derive(Clone, Copy)]
pub struct Report {
    pub count: usize,
    // Their handles, in table order, with zeros behind.
    pub ended: [u64; 64],
}

impl Instrument {
    // A state with no voice and nothing held.
    #[tactic(auto, unfolding(crate::specs::View::view, crate::specs::View::roomy, crate::specs::View::counted))]
    fn empty(design: InstrumentDesign, next_handle: u64, scale: f32) -> Instrument
        ensures { (counted result ≡ true) × (view result ≡ empty_state design next_handle scale) }
    {
        // What stands past the count means nothing. No Default: nothing else asks for such a voice, nor has the Rust one.
        let voice = Voice {
            handle: 0,
            note: Note(0),
            copies: [UnisonCopy::new(0, 1, 0.0); 8],
            copy_count: 0,
            built_hz: 0.0,
            env: EnvGen::default(),
            gain: 0.0,
            releasing: false,
            sustained: false,
        };
        Instrument {
            design,
            table: Table {
                voices: [voice; 64],
                count: 0,
            },
            next_handle,
            sustain: false,
            bend: scale,
            brightness: scale,
            vib_phase: 0.0,
            flt_phase: 0.0,
            trem_phase: 0.0,
            trem: scale,
            held: Held::default(),
            frames: 0,
        }
    }

    pub fn new(design: InstrumentDesign) -> Outcome<Instrument, ()>
        ensures { StartAs design result }
    {
        match design.accepted() {
            Ok(()) => Outcome::answered(Instrument::empty(design, 1, 1.0), ()),
            Err(refusal) => {
                let zeros = Instrument::empty(InstrumentDesign::default(), 0, 0.0);
                Outcome::refused(zeros, refusal)
            }
        }
    }
}

// The theorem that the times of every design the code can hold are values of 32 bits.
fn times_fit(design: InstrumentDesign)
    ensures { TimesFit design }
{}

// The theorem that no list of calls from a start reaches a NaN level, of every design that the code can hold.
#[tactic(auto, using(crate::proofs::Levels::start_levels))]
pub fn levels_within(design: InstrumentDesign)
    ensures { StartLevels design }
{
    times_fit(design);
}

// The theorem that no two replies say the same: None and a handle are told apart.
#[tactic(auto, using(crate::proofs::Told::replies_told))]
pub fn replies_told()
    ensures { RepliesTold }
{}

// A NaN is no velocity; others lie within 0 and 1.
#[tactic(auto, unfolding(model::specs::Notes::velocity_of))]
fn velocity_of(velocity: f32) -> f32
    ensures { result ≡ velocity_of velocity }
{
    if float32::is_nan(velocity) {
        0.0
    } else {
        float32::clamp(velocity, 0.0, 1.0)
    }
}

impl Instrument {
    // Whether a block may have so many frames: fewer where the modulation is active.
    #[tactic(auto, unfolding(model::specs::Formed::frames_fit))]
    fn frames_fit(&self, frames: usize) -> bool
        ensures { result ≡ frames_fit self.now.design frames }
    {
        let most = if self.design.modulation.is_active() {
            64
        } else {
            1024
        };
        1 <= frames && frames <= most
    }

    #[tactic(auto, unfolding(model::specs::Formed::block_fits))]
    fn block_fits(&self, frames: usize) -> bool
        ensures { result ≡ block_fits self.now.design frames }
    {
        frames == 0 || self.frames_fit(frames)
    }

    // Whether a lent list has a place for each frame of every copy. In a well formed table every voice has the design's copies.
    // The count is asked for and no invariant: check 1 has to meet any.
    fn copies_fill(&self, frames: usize, len: usize) -> bool
        requires { self.now.table.count ≤ 64 }
        ensures { result ≡ frames * (self.now.table.count * copies_of self.now.design) == len }
    {
        fills(
            frames,
            self.table.count * (self.design.copies() as usize),
            len,
        )
    }

    // Check 1.
    #[tactic(auto, using(crate::proofs::Parts::accepted_is))]
    pub fn well_formed(&self) -> bool
        ensures { result ≡ formed_state self.now }
    {
        let voices = &self.table.voices[..];
        let notes = &self.held.notes[..];
        self.table.count <= voices.len()
            && self.held.count <= notes.len()
            && self.design.accepted().is_ok()
            && self.table.count <= 2 * (self.design.max_voices as usize)
            && 1 <= self.next_handle
            && self.block_fits(self.frames)
            && self
                .table
                .fits(self.design, self.next_handle, self.held.count)
            && self.held.distinct()
    }

    // What bars a call other than Mix: check 1, and an open block. A call gives its state back with the refusal, which `?`
    // cannot, so each begins with the same lines.
    #[tactic(auto, unfolding(crate::specs::Calls::barred_by))]
    fn barred(&self) -> Result<(), Refusal>
        ensures { result ≡ barred_by self.now }
    {
        if !self.well_formed() {
            return Err(Refusal::Malformed);
        }
        if self.frames != 0 {
            return Err(Refusal::BlockOpen);
        }
        Ok(())
    }

    // Starts a note, or goes on with the Mono voice; at velocity 0 it is a note-off.
    pub fn note_on(self, note: u8, velocity: f32, built: bool) -> Outcome<Instrument, Reply>
        ensures { CallAs self (Call.note_on note velocity built) result }
    {
        let level = velocity_of(velocity);
        if level == 0.0 {
            return self.note_off(note);
        }
        if let Err(refusal) = self.barred() {
            return Outcome::refused(self, refusal);
        }
        if let PlayMode::Mono { legato } = self.design.mode {
            return self.mono_note_on(note, level, built, legato);
        }
        if self.next_handle == u64::MAX {
            return Outcome::refused(self, Refusal::NoHandleLeft);
        }
        self.spawn_voice(note, level, built)
    }

    // A new handle, with a voice where one was built; for the voice room is made. The call's own three arguments: a struct
    // would be made for one call and taken apart at once.
    fn spawn_voice(mut self, note: u8, velocity: f32, built: bool) -> Outcome<Instrument, Reply>
        requires { (counted self ≡ true) × (is_accepted self.design ≡ true) × (self.next_handle < last_handle) }
        ensures { Gives (new_note (view self) (view self).held note velocity built) result }
    {
        let handle = self.next_handle;
        self.next_handle = handle + 1;
        if !built {
            return Outcome::answered(self, Reply::Silent(handle));
        }
        let voice = new_voice(
            self.design,
            self.bend,
            self.brightness,
            handle,
            note,
            velocity,
        );
        let added = self.table.add(voice, self.design.max_voices);
        self.table = added.table;
        Outcome::answered(
            self,
            Reply::Started {
                handle,
                killed: added.killed.and_then(NonZeroU64::new),
                taken: added.taken.and_then(NonZeroU64::new),
            },
        )
    }

    // Mono: the voice that sounds goes on with the note, else a new one is due. Never inlined: its copies of the state
    // would need stack in each note-on.
    #[inline(never)]
    fn mono_note_on(
        mut self,
        note: u8,
        velocity: f32,
        built: bool,
        legato: bool,
    ) -> Outcome<Instrument, Reply>
        requires { barred_by self ≡ Ok tt }
        ensures { OnAs self (new_handle_in (Mono legato) (view self)) (mono_on (view self) legato note velocity built) result }
    {
        let with = self.held.with(note);
        let found = self.table.find_first(|v| !v.releasing);
        if let Some(place) = found {
            let handle = self.table.voices[place].handle;
            let glide = self.design.glide;
            self.held = with;
            self.table = self
                .table
                .change_at(place, |v| v.kept(note, glide, legato, velocity));
            return Outcome::answered(self, Reply::Kept(handle));
        }
        if self.next_handle == u64::MAX {
            return Outcome::refused(self, Refusal::NoHandleLeft);
        }
        self.held = with;
        self.spawn_voice(note, velocity, built)
    }

    // Mono: the voice falls back to the newest note still held, or goes off where none is.
    fn mono_note_off(mut self, note: u8) -> Outcome<Instrument, Reply>
        requires { barred_by self ≡ Ok tt }
        ensures { Gives (mono_off (view self) note) result }
    {
        let rest = self.held.without(note);
        if rest.count == self.held.count {
            return Outcome::answered(self, Reply::Off(false));
        }
        self.held = rest;
        let Some(newest) = rest.newest() else {
            let down = self.sustain;
            self.table = self.table.change_all(|v| v.off_sounding(down));
            return Outcome::answered(self, Reply::Off(true));
        };
        let found = self.table.find_first(|v| !v.releasing);
        let Some(place) = found else {
            return Outcome::answered(self, Reply::Off(true));
        };
        let glide = self.design.glide;
        self.table = self.table.change_at(place, |v| v.aimed_at(newest, glide));
        Outcome::answered(self, Reply::Off(true))
    }

    // The newest voice of the note goes off.
    pub fn note_off(mut self, note: u8) -> Outcome<Instrument, Reply>
        ensures { CallAs self (Call.control (Control.note_off note)) result }
    {
        if let Err(refusal) = self.barred() {
            return Outcome::refused(self, refusal);
        }
        if let PlayMode::Mono { .. } = self.design.mode {
            return self.mono_note_off(note);
        }
        let found = self.table.find_last(|v| v.plays(note));
        let Some(place) = found else {
            return Outcome::answered(self, Reply::Off(false));
        };
        let down = self.sustain;
        self.table = self.table.change_at(place, |v| v.off(down));
        Outcome::answered(self, Reply::Off(true))
    }

    // Sustain pedal: on its release every sustained voice is released.
    pub fn set_sustain(mut self, down: bool) -> Outcome<Instrument, Reply>
        ensures { CallAs self (Call.control (Control.pedal down)) result }
    {
        if let Err(refusal) = self.barred() {
            return Outcome::refused(self, refusal);
        }
        self.sustain = down;
        if down {
            return Outcome::answered(self, Reply::Done);
        }
        self.table = self.table.change_all(|v| v.lifted());
        Outcome::answered(self, Reply::Done)
    }

    // Bends every voice, and any struck later, by the wheel's factor.
    pub fn set_bend(mut self, factor: f32) -> Outcome<Instrument, Reply>
        ensures { CallAs self (Call.control (Control.bend factor)) result }
    {
        if let Err(refusal) = self.barred() {
            return Outcome::refused(self, refusal);
        }
        self.bend = factor;
        self.table = self
            .table
            .change_all(|v| v.with_copies(|copy| copy.set_bend(factor)));
        Outcome::answered(self, Reply::Done)
    }

    // Sets the cutoff of every copy, and of any built later.
    pub fn set_brightness(mut self, scale: f32) -> Outcome<Instrument, Reply>
        ensures { CallAs self (Call.control (Control.brightness scale)) result }
    {
        if let Err(refusal) = self.barred() {
            return Outcome::refused(self, refusal);
        }
        let least = float32::max(scale, 0.01);
        self.brightness = least;
        self.table = self
            .table
            .change_all(|v| v.with_copies(|copy| copy.set_cutoff(least)));
        Outcome::answered(self, Reply::Done)
    }

    // Releases one voice by its handle.
    pub fn release(mut self, handle: u64) -> Outcome<Instrument, Reply>
        ensures { CallAs self (Call.control (Control.release handle)) result }
    {
        if let Err(refusal) = self.barred() {
            return Outcome::refused(self, refusal);
        }
        let found = self.table.find_first(|v| v.has_handle(handle));
        let Some(place) = found else {
            return Outcome::answered(self, Reply::Released(false));
        };
        self.table = self.table.change_at(place, |v| v.released());
        Outcome::answered(self, Reply::Released(true))
    }

    // Releases every voice and holds no note.
    pub fn all_notes_off(mut self) -> Outcome<Instrument, Reply>
        ensures { CallAs self (Call.control Control.all_off) result }
    {
        if let Err(refusal) = self.barred() {
            return Outcome::refused(self, refusal);
        }
        self.table = self.table.change_all(|v| v.released());
        self.held.count = 0;
        Outcome::answered(self, Reply::Done)
    }

    // Whether a handle is in the table.
    #[tactic(auto, using(crate::proofs::Queries::active_in), unfolding(crate::specs::Asked::asked_of, crate::specs::View::formed, voice::specs::View::shown))]
    pub fn is_active(&self, handle: u64) -> Result<bool, Refusal>
        ensures { active_of result ≡ asked_of self.now (is_active (view self.now) handle) }
    {
        if !self.well_formed() {
            return Err(Refusal::Malformed);
        }
        let found = self.table.find_first(|v| v.has_handle(handle));
        Ok(found.is_some())
    }

    // How many voices are in the table.
    #[tactic(auto, unfolding(crate::specs::Asked::asked_of, crate::specs::View::formed, crate::specs::View::view, model::specs::Queries::active_voices))]
    pub fn active_voices(&self) -> Result<usize, Refusal>
        ensures { voices_of result ≡ asked_of self.now (active_voices (view self.now)) }
    {
        if !self.well_formed() {
            return Err(Refusal::Malformed);
        }
        Ok(self.table.live().len())
    }

    // Some voice of a note that is not releasing.
    pub fn voice_of(&self, note: u8) -> Result<Option<u64>, Refusal>
        ensures { VoiceAs self.now note result }
    {
        if !self.well_formed() {
            return Err(Refusal::Malformed);
        }
        let found = self.table.find_first(|v| v.sounds_note(note));
        Ok(found.and_then(|place| self.table.handle_at(place)))
    }
}
