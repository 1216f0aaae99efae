// Words of 32 bits as eight hexadecimal digits, read from a line and written to one.

use std::io;

// A letter, and seven words: eight digits each, and the byte behind them. A word is read when it is asked for.
#[derive(Drop)]
pub struct Line<'a> {
    pub letter: u8,
    words: &'a [[u8; 9]],
}

// A byte that is no capital hexadecimal digit counts as 0.
fn word(digits: &[u8; 9]) -> u32 {
    digits[..8].iter().fold(0u32, |value, byte| {
        let digit = text::hex_value(*byte).unwrap_or(0);
        value.wrapping_mul(16).wrapping_add(u32::from(digit))
    })
}

impl Line<'_> {
    // Behind the letter each word has a space before it.
    pub fn read(line: &[u8; 65]) -> Line<'_> {
        let (words, _) = line[2..].as_chunks::<9>();
        Line {
            letter: line[0],
            words,
        }
    }

    // Word k; there is none beyond the seventh.
    pub fn word(&self, k: usize) -> u32 {
        self.words.get(k).map_or(0, word)
    }

    pub fn float(&self, k: usize) -> f32 {
        float32::from_bits(self.word(k))
    }

    // A word's lowest byte.
    pub fn byte(&self, k: usize) -> u8 {
        (self.word(k) % 256) as u8
    }
}

const GLYPHS: [u8; 16] = *b"0123456789ABCDEF";

// From the last digit to the first.
// By hand: lines are nearly all that the program does, and the library's printing takes several times as long for one.
fn spell(word: u32, digits: &mut [u8]) {
    let mut rest = word;
    for digit in digits.iter_mut().rev() {
        *digit = GLYPHS[(rest % 16) as usize];
        rest /= 16;
    }
}

// Writes a line: a letter and eight words, each with a space before it.
pub fn say(rt: &impl Print, letter: u8, words: [u32; 8]) -> io::Result<()> {
    let mut line = [b' '; 74];
    line[0] = letter;
    let (rooms, _) = line[1..].as_chunks_mut::<9>();
    for (room, word) in rooms.iter_mut().zip(&words) {
        spell(*word, &mut room[1..]);
    }
    line[73] = b'\n';
    rt.write_all(&line)
}
