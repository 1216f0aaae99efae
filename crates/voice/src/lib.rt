// One voice (the Rust's Voice): what a call may make of it and ask of it, and a new one.

#![tactic(auto)]

ghost use Rattle.std.specs.Prelude.{◌≡◌, ◌≤◌, length, take};
ghost use Rattle.stream.specs.declared.UnisonCopy.{UnisonCopy};
ghost use Rattle.model.specs.Voices.{has_handle, released_voice, killed_voice, with_sustained, with_copies, aimed_at, struck_again};
ghost use Rattle.model.specs.Notes.{off_voice, plays as plays_of, kept_voice};
ghost use Rattle.model.specs.Controls.{lifted_voice};
ghost use Rattle.model.specs.Queries.{sounds_note};
ghost use Rattle.voice.specs.View.{shown, seen};
ghost use Rattle.voice.specs.New.{made_copies, copies_made, made_voice};
ghost use Rattle.voice.specs.Changes.{gated, off_sounding, on_seen, MakesCopy};

use design::InstrumentDesign;
use envelope::EnvGen;
use lists::change_first;
use note::Note;
use stream::UnisonCopy;

#[derive(Clone, Copy)]
pub struct Voice {
    pub handle: u64,
    pub note: Note,
    // The unison copies, up to `copy_count`: fixed memory, nothing is on the heap.
    pub copies: [UnisonCopy; 8],
    pub copy_count: usize,
    // The frequency that the copies were built at.
    pub built_hz: f32,
    pub env: EnvGen,
    pub gain: f32,
    // Set once the envelope is gated off.
    pub releasing: bool,
    // A note-off arrived while the pedal was down.
    pub sustained: bool,
}

impl Voice {
    // Releasing, with its envelope gated off.
    #[tactic(auto, unfolding(crate::specs::View::seen, crate::specs::View::shown, crate::specs::Changes::on_seen, model::specs::Voices::with_voice))]
    fn gated(mut self, env: EnvGen) -> Voice
        ensures { seen result ≡ on_seen (gated env) (seen self) }
    {
        self.env = env;
        self.releasing = true;
        self
    }

    #[tactic(auto, unfolding(crate::specs::View::seen, crate::specs::View::shown, crate::specs::Changes::on_seen, model::specs::Voices::released_voice))]
    pub fn released(self) -> Voice
        ensures { seen result ≡ on_seen released_voice (seen self) }
    {
        self.gated(self.env.gate_off())
    }

    // Stolen for a new note.
    #[tactic(auto, unfolding(crate::specs::View::seen, crate::specs::View::shown, crate::specs::Changes::on_seen, model::specs::Voices::killed_voice))]
    pub fn killed(self) -> Voice
        ensures { seen result ≡ on_seen killed_voice (seen self) }
    {
        self.gated(self.env.kill())
    }

    #[tactic(auto, unfolding(crate::specs::View::seen, crate::specs::View::shown, crate::specs::Changes::on_seen, model::specs::Voices::with_sustained, model::specs::Voices::with_voice))]
    fn with_sustained(mut self, sustained: bool) -> Voice
        ensures { seen result ≡ on_seen (with_sustained sustained) (seen self) }
    {
        self.sustained = sustained;
        self
    }

    // A note-off: sustained while the pedal is down, else released.
    #[tactic(auto, unfolding(crate::specs::Changes::on_seen, model::specs::Notes::off_voice))]
    pub fn off(self, down: bool) -> Voice
        ensures { seen result ≡ on_seen (off_voice down) (seen self) }
    {
        if down {
            self.with_sustained(true)
        } else {
            self.released()
        }
    }

    // A voice that is releasing stays as it is.
    #[tactic(auto, unfolding(crate::specs::View::seen, crate::specs::View::shown, crate::specs::Changes::on_seen))]
    pub fn off_sounding(self, down: bool) -> Voice
        ensures { seen result ≡ on_seen (off_sounding down) (seen self) }
    {
        if self.releasing { self } else { self.off(down) }
    }

    // The pedal goes up: a sustained voice is released.
    #[tactic(auto, unfolding(crate::specs::View::seen, crate::specs::View::shown, crate::specs::Changes::on_seen, model::specs::Controls::lifted_voice))]
    pub fn lifted(self) -> Voice
        ensures { seen result ≡ on_seen lifted_voice (seen self) }
    {
        if self.sustained {
            self.released().with_sustained(false)
        } else {
            self
        }
    }

    // Each copy that counts changed.
    pub fn with_copies<F: Fn(UnisonCopy) -> UnisonCopy>(mut self, change: F) -> Voice
        requires { F.IsAlwaysCallable change }
        ensures { (f : UnisonCopy → UnisonCopy) → MakesCopy (F.post change) f
            → seen result ≡ on_seen (with_copies f) (seen self) }
    {
        let count = self.copy_count;
        change_first(&mut self.copies, count, change);
        self
    }

    // Takes the note; the copies glide to its frequency.
    pub fn aimed_at(self, note: u8, coeff: f32) -> Voice
        ensures { seen result ≡ on_seen (aimed_at coeff note) (seen self) }
    {
        let note = Note(note);
        let scale = note.freq() / self.built_hz;
        let mut v = self.with_copies(|copy| copy.glide_pitch(scale, coeff));
        v.note = note;
        v
    }

    // The envelope is gated on from its level, with another velocity.
    #[tactic(auto, unfolding(crate::specs::View::seen, crate::specs::View::shown, crate::specs::Changes::on_seen, model::specs::Voices::struck_again, model::specs::Voices::with_voice))]
    fn struck_again(mut self, velocity: f32) -> Voice
        ensures { seen result ≡ on_seen (struck_again velocity) (seen self) }
    {
        self.env = self.env.gate_on();
        self.gain = velocity;
        self
    }

    // The one voice of a mono instrument goes on with another note.
    #[tactic(auto, unfolding(crate::specs::Changes::on_seen, model::specs::Notes::kept_voice))]
    pub fn kept(self, note: u8, coeff: f32, legato: bool, velocity: f32) -> Voice
        ensures { seen result ≡ on_seen (kept_voice coeff legato note velocity) (seen self) }
    {
        let v = self.aimed_at(note, coeff).with_sustained(false);
        if legato { v } else { v.struck_again(velocity) }
    }

    #[tactic(auto, unfolding(crate::specs::View::shown))]
    pub fn has_handle(self, handle: u64) -> bool
        ensures { result ≡ has_handle handle (shown self) }
    {
        self.handle == handle
    }

    #[tactic(auto, unfolding(crate::specs::View::shown))]
    pub fn plays(self, note: u8) -> bool
        ensures { result ≡ plays_of note (shown self) }
    {
        self.sounds_note(note) && !self.sustained
    }

    #[tactic(auto, unfolding(crate::specs::View::shown))]
    pub fn sounds_note(self, note: u8) -> bool
        ensures { result ≡ sounds_note note (shown self) }
    {
        !self.releasing && self.note.0 == note
    }

    // How many copies count.
    #[tactic(auto, unfolding(crate::specs::View::shown))]
    pub fn copies_shown(self) -> usize
        ensures { (result ≤ 8) × (result ≡ length (shown self).copies) }
    {
        self.copy_count.min(8)
    }

    // The copies that count.
    #[tactic(auto, using(crate::proofs::Sizes::copies_seen))]
    pub fn live_copies(&self) -> &[UnisonCopy]
        ensures { result.now ≡ (shown self.now).copies }
    {
        &self.copies[..self.copies_shown()]
    }
}

// How many copies a new voice has; an accepted design asks for no more than 8.
fn copies_of(design: InstrumentDesign) -> u8
    ensures { result ≡ copies_made design }
{
    design.copies().min(8) as u8
}

// The n copies of a new voice.
fn new_copies(n: u8, width: f32, bend: f32, brightness: f32) -> [UnisonCopy; 8]
    requires { n ≤ 8 }
    ensures { take n result ≡ made_copies width bend brightness n n }
{
    let first = UnisonCopy::new(0, n, width);
    let mut copies = [first; 8];
    for (k, copy) in copies[..n as usize].iter_mut().enumerate() {
        *copy = UnisonCopy::new(k as u8, n, width).catch_up(bend, brightness);
    }
    copies
}

// A voice of a new note: its envelope is gated on, and its copies take over bend and brightness.
// Two floats, as the Rust passes them: a struct of them would be taken apart at once.
#[tactic(auto, unfolding(crate::specs::View::seen, crate::specs::View::shown, crate::specs::New::made_env, crate::specs::New::made_voice))]
pub fn new_voice(
    design: InstrumentDesign,
    bend: f32,
    brightness: f32,
    handle: u64,
    note: u8,
    velocity: f32,
) -> Voice
    ensures { seen result ≡ made_voice design bend brightness handle note velocity }
{
    let n = copies_of(design);
    let copies = new_copies(n, design.unison_width, bend, brightness);
    let amp = design.amp;
    let start = EnvGen::new(amp.a, amp.d, amp.s, amp.r, design.sample_rate);
    let env = start.state.gate_on();
    let pitch = Note(note);
    let built_hz = pitch.freq();
    Voice {
        handle,
        note: pitch,
        copies,
        copy_count: n as usize,
        built_hz,
        env,
        gain: velocity,
        releasing: false,
        sustained: false,
    }
}
