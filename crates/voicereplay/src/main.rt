// Reads lines of the replay format from standard input and prints the answer to each.
// Input and output go by blocks; memory is the same for every input.

#![tactic(auto)]

use lines::Line;
use patterns::Page;
use replay::Session;
use std::io;

// A session, the memory that it lends for blocks, and the output that waits.
#[derive(Drop)]
struct Run<'a> {
    session: Session,
    samples: &'a mut [f32],
    stereo: &'a mut [f32],
    page: Page<'a>,
}

impl<'a> Run<'a> {
    fn flush(&mut self, rt: &impl Print) -> io::Result<()> {
        rt.write_all(self.page.text())?;
        self.page.clear();
        Ok(())
    }

    // The output goes out where it may not have room for one more answer.
    fn answer(&mut self, rt: &impl Print, line: &[u8]) -> io::Result<()> {
        self.session
            .answer(line, self.samples, self.stereo, &mut self.page);
        if self.page.text().len() < 30_720 {
            return Ok(());
        }
        self.flush(rt)
    }
}

// Samples are those of 64 voices of 8 copies over 1,024 frames, and one more; stereo is both sides of 1,024 frames, and
// one more. Of a line longer than 257 bytes the first 257 are kept: it is too long already.
fn main(rt: HostRuntime) -> io::Result<()> {
    let mut input = [0; 65536];
    let mut out = [0; 65536];
    let mut samples = [0.0; 524_289];
    let mut stereo = [0.0; 2049];
    let page = Page::new(&mut out);
    let mut run = Run {
        session: Session::new(),
        samples: samples.as_mut_slice(),
        stereo: stereo.as_mut_slice(),
        page,
    };
    let mut line = Line::<257>::new();
    lines::blocks(&mut rt.stdin(), &mut input, |block| {
        line.take(block, |text| run.answer(&rt, text))?;
        run.flush(&rt)
    })?;
    line.finish(|text| run.answer(&rt, text))?;
    run.flush(&rt)
}
