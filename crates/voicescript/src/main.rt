// voicescript: reads the forms of the script language from standard input, one a line, and prints one a line.
// What a line says and does is `script::line`'s; here bytes are only gathered to lines and written out.

#![tactic(auto)]

use lines::Line;
use script::Session;
use std::io;

fn answer(rt: &impl Print, session: &mut Session, line: &[u8]) -> io::Result<()> {
    let mut out = [0; 4096];
    let said = script::line(*session, line, &mut out);
    *session = said.session;
    rt.write_all(out.get(..said.count).unwrap_or(&[]))
}

// Of a line longer than 257 bytes the first 257 are kept: it is too long already.
fn main(rt: HostRuntime) -> io::Result<()> {
    let mut buffer = [0; 4096];
    let mut session = script::start();
    let mut line = Line::<257>::new();
    lines::blocks(&mut rt.stdin(), &mut buffer, |block| {
        line.take(block, |text| answer(&rt, &mut session, text))
    })?;
    line.finish(|text| answer(&rt, &mut session, text))
}
