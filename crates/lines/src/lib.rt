// Bytes that come in blocks, gathered to lines.

#![tactic(auto)]

ghost use Rattle.std.specs.Prelude.{◌≡◌, ◌++◌, ◌∷◌, ◌≤◌, ◌<◌, [], List, ℕ, take, length};
ghost use Rattle.std.specs.Result.{OnOk};
ghost use Rattle.std.specs.List.{fold, FoldsTo};
ghost use Rattle.std.specs.Fn.{CalledAt, FnOnceReturnsAt};
ghost use Rattle.lines.specs.Lines.{after, WasReadIn};

use std::io;
use std::io::Read;
use std::marker::Model;

// The line under way: of a longer one, its first N bytes.
// An array and a length, and no `String`: there is no heap. The invariant ties the two.
#[derive(Drop)]
pub struct Line<const N: usize> {
    bytes: [u8; N],
    len: usize,
}

// Clauses see the bytes.
impl<const N: usize> Model for Line<N> {
    ghost Value = { List ℕ };

    ghost view = { λ l. take l.len l.bytes };

    ghost invariant = { λ l. l.len ≤ N };
}

impl<const N: usize> Line<N> {
    pub fn new() -> Self
        ensures { result ≡ [] }
    {
        Line {
            bytes: [0; N],
            len: 0,
        }
    }

    fn text(&self) -> &[u8]
        ensures { result.now ≡ self.now }
    {
        &self.bytes[..self.len]
    }

    fn clear(&mut self)
        ensures { self.new ≡ [] }
    {
        self.len = 0;
    }

    fn push(&mut self, byte: u8)
        ensures { self.new ≡ take N (self.old ++ byte ∷ []) }
    {
        if self.len < N {
            self.bytes[self.len] = byte;
            self.len += 1;
        }
    }

    // Takes a block of input: `each` answers the lines that it ends, to the first that cannot be answered.
    pub fn take<F: FnMut(&[u8]) -> io::Result<()>>(
        &mut self,
        block: &[u8],
        mut each: F,
    ) -> io::Result<()>
        requires { F.IsAlwaysCallable each }
        ensures line { OnOk result (self.new ≡ (fold (after N) ([], self.old) block.now).1) }
        ensures lines { OnOk result ((last : F) ×
            FoldsTo (λ f line g. CalledAt F.FnMut f line (Ok tt) g) each (fold (after N) ([], self.old) block.now).0 last) }
    {
        for byte in block {
            if *byte == b'\n' {
                each(self.text())?;
                self.clear();
            } else {
                self.push(*byte);
            }
        }
        Ok(())
    }

    // The last line, which may lack its line feed.
    pub fn finish<F: FnOnce(&[u8]) -> io::Result<()>>(&self, last: F) -> io::Result<()>
        requires { F.IsAlwaysCallable last }
        ensures none { self.now ≡ [] → result ≡ Ok tt }
        ensures answered { 0 < length self.now → FnOnceReturnsAt F.FnOnce last self.now result }
    {
        if self.len == 0 {
            return Ok(());
        }
        last(self.text())
    }
}

// Hands each block of input to `each`, to the first that cannot be read or answered.
// Nothing says that an input ends, so the turns are counted, up to what no run reaches.
pub fn blocks<R: Read, F: FnMut(&[u8]) -> io::Result<()>>(
    input: &mut R,
    buffer: &mut [u8],
    mut each: F,
) -> io::Result<()>
    requires { F.IsAlwaysCallable each }
    ensures { OnOk result ((blocks : List (List ℕ)) × (last : F) ×
        FoldsTo (λ f block g. CalledAt F.FnMut f block (Ok tt) g) each blocks last
        × WasReadIn blocks (R.remaining input.old) (R.remaining input.new) buffer.old) }
{
    for _turn in 0..u64::MAX {
        let count = input.read(buffer)?;
        if count == 0 {
            return Ok(());
        }
        each(&buffer[..count])?;
    }
    Ok(())
}
