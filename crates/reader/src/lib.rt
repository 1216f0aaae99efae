// A reader of MIDI bytes that keeps its stream beside its cursor. Each method takes it apart, and leaves the work to a
// function on a plain slice.

#![tactic(auto)]

ghost use Rattle.std.specs.Prelude.{◌≡◌, [], ◌∷◌};
ghost use Rattle.midi.specs.Answers.{told};
ghost use Rattle.midi.specs.Steps.{stepped};
ghost use Rattle.midi.specs.Streams.{start};
ghost use Rattle.reader.specs.Readers.{reader_at, at_start};
ghost use Rattle.reader.specs.Tallies.{counts_of, plus, Within, tallied, TallyComplete};

use midi::{Cursor, Event};
use outcome::Outcome;

#[derive(Clone, Copy)]
pub struct Reader<'a> {
    pub stream: &'a [u8],
    pub cursor: Cursor,
}

// How many events of each kind.
#[derive(Clone, Copy, Debug, Default, PartialEq, Eq)]
pub struct Counts {
    pub ons: usize,
    pub offs: usize,
    pub pedals: usize,
    pub all_offs: usize,
    pub bends: usize,
    pub others: usize,
}

// The events that were read, and the outcome that ended the reading: the stream's end, or a refusal.
#[derive(Clone, Copy)]
pub struct Tally {
    pub counts: Counts,
    pub last: Outcome<Cursor, Option<Event>>,
}

// One event more. The bound leaves room for it in every count.
fn counted(mut counts: Counts, event: Event) -> Counts
    requires { Within 0xFFFF_FFFF_FFFF_FFFE counts }
    ensures { result ≡ plus counts (counts_of (told event ∷ [])) }
{
    match event {
        Event::On(_, _) => counts.ons += 1,
        Event::Off(_) => counts.offs += 1,
        Event::Pedal(_) => counts.pedals += 1,
        Event::AllOff => counts.all_offs += 1,
        Event::Bend(_) => counts.bends += 1,
        Event::Other => counts.others += 1,
    }
    counts
}

// The work: every event from `from` on. No iterator: the outcome that ends the walk is told too, with its cursor.
// Nor one walk with a closure for all programs: here the counts keep a bound, elsewhere printing may fail.
fn tally_from(stream: &[u8], from: Cursor) -> Tally
    ensures { result ≡ tallied stream.now from }
{
    let mut counts = Counts::default();
    let mut last = midi::step(stream, from);
    while let Ok(Some(event)) = last.reply {
        counts = counted(counts, event);
        last = midi::step(stream, last.state);
    }
    Tally { counts, last }
}

impl<'a> Reader<'a> {
    // At the start of a stream, with no running status.
    pub fn new(stream: &'a [u8]) -> Reader<'a>
        ensures { result ≡ at_start stream.entry }
    {
        Reader {
            stream,
            cursor: Cursor::default(),
        }
    }

    // The next event, none at the stream's end, or a refusal, with the cursor behind it.
    pub fn step(self) -> Outcome<Cursor, Option<Event>>
        ensures { result ≡ stepped self.entry.stream.now self.entry.cursor }
    {
        midi::step(self.stream, self.cursor)
    }

    // The same stream, at another cursor.
    pub fn at(self, cursor: Cursor) -> Reader<'a>
        ensures { result ≡ reader_at self.entry.stream cursor }
    {
        Reader {
            stream: self.stream,
            cursor,
        }
    }

    // All that is left of the stream.
    pub fn tally(self) -> Tally
        ensures { result ≡ tallied self.entry.stream.now self.entry.cursor }
    {
        tally_from(self.stream, self.cursor)
    }
}

// A whole stream. A caller passes a plain slice, and never sees the reader.
pub fn read_stream(stream: &[u8]) -> Tally
    ensures { result ≡ tallied stream.now start }
{
    Reader::new(stream).tally()
}

// The theorem on tallies.
#[tactic(auto, using(crate::proofs::Complete::ended, crate::proofs::Complete::counted))]
pub fn tally_complete()
    ensures { TallyComplete }
{}
