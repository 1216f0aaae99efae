// The line handler of the script program.

#![tactic(auto)]

ghost use Rattle.std.specs.Prelude.{◌≡◌, ◌+◌, ◌≤◌, length, Ok};
ghost use Rattle.voice.specs.View.{shown};
ghost use Rattle.table.specs.View.{voices_in};
ghost use Rattle.instrument.specs.Calls.{reply_of};
ghost use Rattle.model.specs.Types.{Reply.started};
ghost use Rattle.forms.specs.Forms.{decimal_part, word_part};
ghost use Rattle.forms.specs.Named.{design_of};
ghost use Rattle.script.specs.Answers.{unread_text, one_text, start_text, reply_text, row_text, rows_text, table_text};
ghost use Rattle.script.specs.Lines.{Puts, call_of, NoDesign, Stays, DesignDoes, OnDoes, VoicesDoes, LineAs};

use design::InstrumentDesign;
use forms::{DesignForm, Form, OnForm};
use instrument::{Instrument, Reply};
use outcome::Refusal;
use std::num::NonZeroU64;
use table::Table;
use voice::Voice;

// The instrument, once a design was accepted.
pub type Session = Option<Instrument>;

// The session after a line, and how many bytes were printed.
#[derive(Clone, Copy)]
pub struct Said {
    pub session: Session,
    pub count: usize,
}

// With no heap the buffer is lent: a text goes to a place, and gives the place behind it. The two are no struct: the
// contracts of `text` are over a buffer and a place.

#[tactic(auto, using(crate::proofs::Prints::puts_both, crate::proofs::Prints::part_length))]
fn put_decimal(out: &mut [u8], at: usize, lead: &[u8], n: u64) -> usize
    ensures puts { Puts (decimal_part lead.now n) out.old at out.new result }
    ensures n_in_bounds { length (decimal_part lead.now n) ≤ length lead.now + 20 }
{
    let next = text::put_literal(out, at, lead);
    text::put_decimal(out, next, n)
}

#[tactic(auto, using(crate::proofs::Prints::puts_both))]
fn put_word(out: &mut [u8], at: usize, lead: &[u8], n: u32) -> usize
    ensures { Puts (word_part lead.now n) out.old at out.new result }
{
    let next = text::put_literal(out, at, lead);
    text::put_word(out, next, n)
}

#[tactic(auto, using(crate::proofs::Prints::puts, crate::proofs::Prints::puts_then, crate::proofs::Prints::one_length))]
fn put_one(out: &mut [u8], word: &[u8], n: u64) -> usize
    ensures puts { Puts (one_text word.now n) out.old 0 out.new result }
    ensures n_in_bounds { length (one_text word.now n) ≤ length word.now + 22 }
{
    let next = put_decimal(out, 0, word, n);
    text::put_literal(out, next, b")\n")
}

fn put_started(out: &mut [u8], handle: u64, killed: u64, taken: u64) -> usize
    ensures puts { Puts (reply_text (started handle killed taken)) out.old 0 out.new result }
    ensures taken_len_bound { length (reply_text (started handle killed taken)) ≤ 73 }
{
    let a = put_decimal(out, 0, b"(started ", handle);
    let b = put_decimal(out, a, b" ", killed);
    let c = put_decimal(out, b, b" ", taken);
    text::put_literal(out, c, b")\n")
}

// The replay format prints the same words by its patterns, without a contract.
#[tactic(auto, using(crate::proofs::Prints::puts, crate::proofs::Prints::flag))]
fn put_accepted(out: &mut [u8], reply: Reply) -> usize
    ensures puts { Puts (reply_text (reply_of (Ok reply))) out.old 0 out.new result }
    ensures reply_len_bound { length (reply_text (reply_of (Ok reply))) ≤ 4096 }
{
    match reply {
        Reply::Started {
            handle,
            killed,
            taken,
        } => put_started(
            out,
            handle,
            killed.map_or(0, NonZeroU64::get),
            taken.map_or(0, NonZeroU64::get),
        ),
        Reply::Silent(handle) => put_one(out, b"(silent ", handle),
        Reply::Kept(handle) => put_one(out, b"(kept ", handle),
        Reply::Off(found) => put_one(out, b"(off ", u64::from(found)),
        Reply::Done | Reply::Planned => text::put_literal(out, 0, b"(done)\n"),
        Reply::Released(found) => put_one(out, b"(released ", u64::from(found)),
    }
}

fn put_reply(out: &mut [u8], reply: Result<Reply, Refusal>) -> usize
    ensures puts { Puts (reply_text (reply_of reply)) out.old 0 out.new result }
    ensures reply_len_bound { length (reply_text (reply_of reply)) ≤ 4096 }
{
    match reply {
        Ok(reply) => put_accepted(out, reply),
        Err(refusal) => put_one(out, b"(refused ", u64::from(refusal.number())),
    }
}

fn put_start(out: &mut [u8], reply: Result<(), Refusal>) -> usize
    ensures puts { Puts (start_text reply) out.old 0 out.new result }
    ensures reply_len_bound { length (start_text reply) ≤ 4096 }
{
    match reply {
        Ok(()) => text::put_literal(out, 0, b"(ready)\n"),
        Err(refusal) => put_one(out, b"(refused ", u64::from(refusal.number())),
    }
}

fn put_row(out: &mut [u8], at: usize, v: Voice) -> usize
    ensures puts { Puts (row_text (shown v)) out.old at out.new result }
    ensures v_len_bound { length (row_text (shown v)) ≤ 57 }
{
    let env = v.env;
    let note = v.note;
    let a = put_decimal(out, at, b" (", v.handle);
    let b = put_decimal(out, a, b" ", u64::from(note.0));
    let c = put_decimal(out, b, b" ", u64::from(v.releasing));
    let d = put_decimal(out, c, b" ", u64::from(v.sustained));
    let e = put_word(out, d, b" ", float32::to_bits(env.level));
    text::put_literal(out, e, b")")
}

fn put_rows(table: Table, out: &mut [u8]) -> usize
    ensures puts { Puts (rows_text (voices_in table)) out.old 0 out.new result }
    ensures len_bound { length (rows_text (voices_in table)) ≤ 3655 }
{
    let live = table.live();
    let mut next = text::put_literal(out, 0, b"(voices");
    for v in live {
        next = put_row(out, next, *v);
    }
    next
}

fn put_table(table: Table, out: &mut [u8]) -> usize
    ensures puts { Puts (table_text (voices_in table)) out.old 0 out.new result }
    ensures len_bound { length (table_text (voices_in table)) ≤ 4096 }
{
    let next = put_rows(table, out);
    text::put_literal(out, next, b")\n")
}

// This and the lines below ask for the room that `line` has tested. No array type: `line` takes any buffer, and what stands
// behind an array cut out of it would have to be told anew.
#[tactic(auto, using(crate::proofs::Prints::puts, crate::proofs::Prints::printed))]
fn unread(s: Session, out: &mut [u8]) -> Said
    requires { 4096 ≤ length out.old }
    ensures { Stays s unread_text out.old out.new result }
{
    let count = text::put_literal(out, 0, b"(unread)\n");
    Said { session: s, count }
}

#[tactic(auto, using(crate::proofs::Prints::printed, crate::proofs::Turns::design_second, crate::proofs::Turns::design_refused, crate::proofs::Turns::design_ready))]
fn design_line(s: Session, f: DesignForm, out: &mut [u8]) -> Said
    requires { 4096 ≤ length out.old }
    ensures { DesignDoes s (design_of f) out.old out.new result }
{
    if s.is_some() {
        return unread(s, out);
    }
    let made = Instrument::new(InstrumentDesign::from(f));
    let count = put_start(out, made.reply);
    let Ok(()) = made.reply else {
        return Said { session: s, count };
    };
    Said {
        session: Some(made.state),
        count,
    }
}

#[tactic(auto, using(crate::proofs::Prints::printed, crate::proofs::Turns::on_first, crate::proofs::Turns::on_calls))]
fn on_line(s: Session, f: OnForm, out: &mut [u8]) -> Said
    requires { 4096 ≤ length out.old }
    ensures { OnDoes s (call_of f) out.old out.new result }
{
    let Some(before) = s else {
        return unread(s, out);
    };
    let outcome = before.note_on(f.note, float32::from_bits(f.velocity), f.built);
    let count = put_reply(out, outcome.reply);
    Said {
        session: Some(outcome.state),
        count,
    }
}

#[tactic(auto, using(crate::proofs::Prints::printed, crate::proofs::Turns::voices_first, crate::proofs::Turns::voices_table))]
fn voices_line(s: Session, out: &mut [u8]) -> Said
    requires { 4096 ≤ length out.old }
    ensures { VoicesDoes s out.old out.new result }
{
    let Some(state) = s else {
        return unread(s, out);
    };
    let count = put_table(state.table, out);
    Said { session: s, count }
}

// No design was accepted yet.
pub fn start() -> Session
    ensures { NoDesign result }
{
    None
}

// Answers one line, without its line feed, into a buffer of at least 4,096 bytes.
#[tactic(auto, using(crate::proofs::Turns::line_small, crate::proofs::Turns::line_does))]
pub fn line(s: Session, line: &[u8], out: &mut [u8]) -> Said
    ensures { LineAs s line.now out.old out.new result }
{
    if out.len() < 4096 {
        return Said {
            session: s,
            count: 0,
        };
    }
    let Some(form) = forms::read(line) else {
        return unread(s, out);
    };
    match form {
        Form::Design(f) => design_line(s, f, out),
        Form::On(f) => on_line(s, f, out),
        Form::Voices => voices_line(s, out),
    }
}
