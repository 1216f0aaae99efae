// Cases of instrument calls, a line for each reply. `(case N)` starts a case: 101 to 164 are
// refusals, 201 on Poly, 301 on Mono, 401 on the pedal, 501 on bend and brightness. In all these every level is 0.
// 601 on add Plan and Mix with the numbers that they write: blocks and their refusals; 621 on levels that differ, and
// so stealing by level and voices that end; 641 on modulation, glides and unison. After a refusal the state must be
// the one that was given, or `(changed)` is printed, and the lent places as they were, or `(touched)`.
//
// `stdin` has the cases: lines of the replay format, which `replay` answers, the lines of `made`, which change the state
// by hand, and lines behind a dash, which are answered and not printed. tools/instrument_lines.txt has the same calls
// with no line of `made`, but for states that no list of calls reaches (111 to 147, 153 to 164, 605: those lines are by
// document 01), and `tools/instrument_compare` fails unless the Rust's answers are those of `stdout`.

#![tactic(auto)]

use instrument::Instrument;
use lines::Line;
use patterns::Page;
use replay::Session;
use std::io;

mod made;

// A refused call must give the state back that it was given; a refused start need not.
fn is_kept(before: &Instrument, after: &Instrument, line: &[u8], said: &[u8]) -> bool {
    line.starts_with(b"(design")
        || !said.starts_with(b"(refused ")
        || equal_states::equal(*before, *after)
}

fn answer(rt: &impl Print, session: &mut Session, line: &[u8]) -> io::Result<()> {
    let mut samples = [0.0; 160];
    let mut stereo = [0.0; 160];
    let mut out = [0; 4096];
    let mut page = Page::new(&mut out);
    let before = session.instrument;
    session.answer(line, &mut samples, &mut stereo, &mut page);
    rt.write_all(page.text())?;
    if !is_kept(&before, &session.instrument, line, page.text()) {
        rt.write_all(b"(changed)\n")?;
    }
    Ok(())
}

fn quiet(session: &mut Session, line: &[u8]) {
    let mut out = [0; 4096];
    session.answer(line, &mut [], &mut [], &mut Page::new(&mut out));
}

fn line(rt: &impl Print, session: &mut Session, line: &[u8]) -> io::Result<()> {
    if line.starts_with(b"(case ") {
        rt.write_all(line)?;
        return rt.write_all(b"\n");
    }
    if let Some(rest) = line.strip_prefix(b"-") {
        quiet(session, rest);
        return Ok(());
    }
    if made::made(&mut session.instrument, line) {
        return Ok(());
    }
    answer(rt, session, line)
}

fn main(rt: HostRuntime) -> io::Result<()> {
    let mut buffer = [0; 4096];
    let mut session = Session::new();
    session.numbers = true;
    let mut gathered = Line::<257>::new();
    lines::blocks(&mut rt.stdin(), &mut buffer, |block| {
        gathered.take(block, |text| line(&rt, &mut session, text))
    })
}
