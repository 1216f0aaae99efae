// The table of voices (the Rust's `voices: Vec<Voice>`): every pass over the voices of an instrument, once.
// A table is an array with a count; a pass reads it up to its count, and never past the array.

#![tactic(auto)]

ghost use Rattle.std.specs.Prelude.{◌≡◌, map, [], ◌∷◌, ◌++◌, ◌≤◌, ◌*◌, take};
ghost use Rattle.lists.specs.Count.{count};
ghost use Rattle.lists.specs.Least.{lowest};
ghost use Rattle.lists.specs.Places.{find_at, last_at};
ghost use Rattle.model.specs.Types.{no_voice};
ghost use Rattle.model.specs.Voices.{quieter as quieter_of, quietest_sounding, quietest as quietest_of};
ghost use Rattle.voice.specs.View.{shown, seen};
ghost use Rattle.voice.specs.Changes.{on_seen, Tells, Makes};
ghost use Rattle.table.specs.View.{seen_in, voices_in, place_in, handle_in, changed_at, Holds};
ghost use Rattle.table.specs.Room.{KilledAs, TakenAs, AddedAs};

use lists::change_first;
use voice::Voice;

mod check;
mod mix;
mod plan;

#[derive(Clone, Copy)]
pub struct Table {
    pub voices: [Voice; 64],
    // How many of them are live, in order of birth: fixed memory, nothing is on the heap.
    pub count: usize,
}

// A table with a voice more, and the handles of the voices killed and taken out for it.
#[derive(Clone, Copy)]
pub struct Added {
    pub table: Table,
    pub killed: Option<u64>,
    pub taken: Option<u64>,
}

// Whether a voice is below another by level.
#[tactic(auto, unfolding(model::specs::Voices::quieter, voice::specs::View::shown))]
fn quieter(v: Voice, w: Voice) -> bool
    ensures { result ≡ quieter_of (shown v) (shown w) }
{
    let a = v.env;
    let b = w.env;
    float32::total_below(a.level, b.level)
}

impl Table {
    // The voices up to the count, and never past the array.
    pub fn live(&self) -> &[Voice]
        ensures { map seen result.now ≡ seen_in self.now }
    {
        &self.voices[..self.count.min(64)]
    }

    // How many voices pass the test.
    pub fn count_of<F: Fn(Voice) -> bool>(&self, test: F) -> usize
        requires { F.IsAlwaysCallable test }
        ensures { (t : _) → Tells (F.post test) t → result ≡ count t (voices_in self.now) }
    {
        self.live().iter().filter(|v| test(**v)).count()
    }

    // The place of the first that passes.
    pub fn find_first<F: Fn(Voice) -> bool>(&self, test: F) -> Option<usize>
        requires { F.IsAlwaysCallable test }
        ensures { (t : _) → Tells (F.post test) t
            → result ≡ place_in (find_at t (voices_in self.now)) (voices_in self.now) }
    {
        self.live().iter().position(|v| test(*v))
    }

    // The place of the last that passes.
    pub fn find_last<F: Fn(Voice) -> bool>(&self, test: F) -> Option<usize>
        requires { F.IsAlwaysCallable test }
        ensures { (t : _) → Tells (F.post test) t
            → result ≡ place_in (last_at t (voices_in self.now)) (voices_in self.now) }
    {
        self.live().iter().rposition(|v| test(*v))
    }

    // The handle at a place.
    pub fn handle_at(&self, place: usize) -> Option<u64>
        ensures { result ≡ handle_in place (voices_in self.now) }
    {
        self.live().get(place).map(|v| v.handle)
    }

    // The first of the quietest voices that pass a test.
    fn quietest_by<F: Fn(Voice) -> bool>(&self, test: F) -> Option<usize>
        requires { F.IsAlwaysCallable test }
        ensures { (t : _) → Tells (F.post test) t
            → result ≡ place_in (lowest no_voice quieter_of t (voices_in self.now)) (voices_in self.now) }
    {
        self.live()
            .iter()
            .enumerate()
            .filter(|(_, v)| test(**v))
            .reduce(|a, b| if quieter(*b.1, *a.1) { b } else { a })
            .map(|(place, _)| place)
    }

    // The quietest among those not releasing.
    #[tactic(auto, unfolding(model::specs::Voices::quietest_sounding, voice::specs::View::shown))]
    pub fn quietest_sounding(&self) -> Option<usize>
        ensures { result ≡ place_in (quietest_sounding (voices_in self.now)) (voices_in self.now) }
    {
        self.quietest_by(|v| !v.releasing)
    }

    // The quietest among all.
    #[tactic(auto, unfolding(model::specs::Voices::quietest))]
    pub fn quietest(&self) -> Option<usize>
        ensures { result ≡ place_in (quietest_of (voices_in self.now)) (voices_in self.now) }
    {
        self.quietest_by(|_| true)
    }

    // One voice changed; none where there is none at the place.
    pub fn change_at<F: Fn(Voice) -> Voice>(mut self, place: usize, change: F) -> Table
        requires { F.IsAlwaysCallable change }
        ensures { (g : _) → Makes (F.post change) g → Holds (changed_at g place (seen_in self)) result }
    {
        self.count = self.count.min(64);
        if place < self.count {
            self.voices[place] = change(self.voices[place]);
        }
        self
    }

    // Every voice changed.
    pub fn change_all<F: Fn(Voice) -> Voice>(mut self, change: F) -> Table
        requires { F.IsAlwaysCallable change }
        ensures { (g : _) → Makes (F.post change) g → Holds (map (on_seen g) (seen_in self)) result }
    {
        let count = self.count.min(64);
        self.count = count;
        change_first(&mut self.voices, count, change);
        self
    }

    // One voice more, where there is room.
    pub fn push(mut self, voice: Voice) -> Table
        ensures { Holds (take 64 (seen_in self ++ (seen voice ∷ []))) result }
    {
        let end = self.count.min(64);
        self.count = end;
        if end < 64 {
            self.voices[end] = voice;
            self.count = end + 1;
        }
        self
    }

    // Where `max` voices are not releasing the quietest of them is killed: its handle.
    fn kill_quietest(&mut self, max: usize) -> Option<u64>
        requires { self.old.count ≤ 64 }
        ensures { KilledAs max self.old self.new result }
    {
        if self.count_of(|v| !v.releasing) < max {
            return None;
        }
        let victim = self.quietest_sounding()?;
        let voice = self.voices[victim];
        self.voices[victim] = voice.killed();
        Some(voice.handle)
    }

    // Where there are `max` voices the quietest is taken out, and those behind it move down: its handle.
    fn take_quietest(&mut self, max: usize) -> Option<u64>
        requires { self.old.count ≤ 64 }
        ensures { TakenAs max self.old self.new result }
    {
        if self.count < max {
            return None;
        }
        let victim = self.quietest()?;
        let handle = self.voices[victim].handle;
        self.voices.copy_within(victim + 1..self.count, victim);
        self.count -= 1;
        Some(handle)
    }

    // One voice more, for which room is made: where `max` voices are not releasing the quietest of them is killed, then
    // where there are twice as many in all the quietest is taken out.
    pub fn add(mut self, voice: Voice, max: u32) -> Added
        ensures { AddedAs max self voice result }
    {
        self.count = self.count.min(64);
        let most = max as usize;
        let killed = self.kill_quietest(most);
        let taken = self.take_quietest(2 * most);
        let table = self.push(voice);
        Added {
            table,
            killed,
            taken,
        }
    }
}
