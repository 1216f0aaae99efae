// What is printed, in bytes that are lent.

use crate::word_of;

// The text so far stands up to `at`. What finds no room is left out.
// A buffer and a place, and no `String`: there is no heap, so the buffer is lent.
#[derive(Drop)]
pub struct Page<'a> {
    out: &'a mut [u8],
    at: usize,
}

impl<'a> Page<'a> {
    pub fn new(out: &'a mut [u8]) -> Page<'a> {
        Page { out, at: 0 }
    }

    pub fn text(&self) -> &[u8] {
        self.out.get(..self.at).unwrap_or(&[])
    }

    pub fn clear(&mut self) {
        self.at = 0;
    }

    fn literal(&mut self, text: &[u8]) {
        self.at = text::put_literal(self.out, self.at, text);
    }

    fn word(&mut self, n: u32) {
        self.at = text::put_word(self.out, self.at, n);
    }

    // Two digits, the last of a word.
    fn byte(&mut self, n: u32) {
        let mut digits = [b'0'; 8];
        text::put_word(&mut digits, 0, n);
        self.literal(&digits[6..]);
    }

    // A number as the letter says, the format's own text: `W` 8 digits, `B` two, `X` 16, and any other letter a decimal.
    fn number(&mut self, letter: u8, n: u64) {
        match letter {
            b'W' => self.word(word_of(n)),
            b'X' => {
                self.word(word_of(n >> 32));
                self.word(word_of(n));
            }
            b'B' => self.byte(word_of(n)),
            _ => self.at = text::put_decimal(self.out, self.at, n),
        }
    }

    // Prints a pattern with its numbers. One without a number stands whole, or not at all.
    pub fn put(&mut self, pattern: &[u8], numbers: &[u64]) {
        if numbers.is_empty() {
            return self.literal(pattern);
        }
        let mut rest = numbers.iter();
        for p in pattern {
            if p.is_ascii_uppercase() {
                self.number(*p, rest.next().copied().unwrap_or(0));
            } else {
                self.literal(&[*p]);
            }
        }
    }

    // Prints a list in brackets, a space before it and one between two items; each number as the letter says.
    pub fn put_list<T, F: Fn(&T) -> u64>(&mut self, letter: u8, items: &[T], number: F)
        requires { F.IsAlwaysCallable number }
    {
        self.literal(b" (");
        for (i, x) in items.iter().enumerate() {
            if i > 0 {
                self.literal(b" ");
            }
            self.number(letter, number(x));
        }
        self.literal(b")");
    }
}
