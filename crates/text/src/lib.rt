// Numbers as text: read where a text begins, and put into a buffer that the caller lends. A reader gives what is behind the
// number too, and nothing where none stands there.

#![tactic(auto)]

ghost use Rattle.std.specs.Prelude.{◌≡◌, ◌≤◌, ◌<◌, length};
ghost use Rattle.std.specs.Char.{is_ascii_digit};
ghost use Rattle.std.specs.List.{prefix_len};
ghost use Rattle.text.specs.Text.{decimal_text, word_text, glyph as glyph_of};
ghost use Rattle.text.specs.Read.{seen, DecimalAs, WordAs, ByteAs, DigitsAs, ValueAs};
ghost use Rattle.text.specs.Put.{PutAs, EndsIn};

// How many decimal digits the text begins with.
fn digits_len(text: &[u8]) -> usize
    ensures value { result ≡ prefix_len is_ascii_digit text.now }
    ensures within { result ≤ length text.now }
{
    text.iter().take_while(|byte| byte.is_ascii_digit()).count()
}

// A decimal of at most `most` with no digit behind it.
// A u64 has 20 digits at most, so a longer run is not read to its end.
pub fn decimal(text: &[u8], most: u64) -> Option<(u64, &[u8])>
    ensures { DecimalAs most text.now (seen result) }
{
    let head = &text[..text.len().min(21)];
    let (digits, rest) = text.split_at(digits_len(head));
    if digits.len() > 1 && digits[0] == b'0' {
        return None;
    }
    let value = str::from_utf8(digits).ok()?.parse::<u64>().ok()?;
    if value > most {
        return None;
    }
    Some((value, rest))
}

// A capital hexadecimal digit. By hand, as `digits`: `to_digit` and `from_str_radix` take small letters too.
pub fn hex_value(byte: u8) -> Option<u8>
    ensures { ValueAs 16 glyph_of byte result }
{
    match byte {
        b'0'..=b'9' => Some(byte - b'0'),
        b'A'..=b'F' => Some(byte - b'A' + 10),
        _ => None,
    }
}

// K capital hexadecimal digits, of at most 8.
fn digits<const K: usize>(text: &[u8]) -> Option<(u32, &[u8])>
    requires { K ≤ 8 }
    ensures { DigitsAs K text.now (seen result) }
{
    let (digits, rest) = text.split_first_chunk::<K>()?;
    let mut value: u32 = 0;
    for byte in digits {
        let d = hex_value(*byte)?;
        value = 16 * value + d as u32;
    }
    Some((value, rest))
}

// 8 capital hexadecimal digits.
#[tactic(auto, unfolding(crate::specs::Text::word_text))]
pub fn word(text: &[u8]) -> Option<(u32, &[u8])>
    ensures { WordAs text.now (seen result) }
{
    digits::<8>(text)
}

// Two capital hexadecimal digits.
#[tactic(auto, unfolding(crate::specs::Text::byte_text))]
pub fn byte(text: &[u8]) -> Option<(u8, &[u8])>
    ensures { ByteAs text.now (seen result) }
{
    let (value, rest) = digits::<2>(text)?;
    Some((value as u8, rest))
}

// The place behind the text, or `at` and the buffer as it was where it has no room.
// A buffer and a place, here and in `put_decimal` and `put_word`: there is no heap, so the caller lends the buffer, and goes
// on at the place.
pub fn put_literal(out: &mut [u8], at: usize, text: &[u8]) -> usize
    ensures { PutAs text.now out.old at out.new result }
{
    if at > out.len() || text.len() > out.len() - at {
        return at;
    }
    let next = at + text.len();
    out[at..next].copy_from_slice(text);
    next
}

// From the last digit to the first.
// By hand, as `glyph` and `spell_word`: the library's printing states the digits only where it succeeds, and no contract
// says that it does where they have room.
#[tactic(auto, using(crate::proofs::Spells::figuring_done, crate::proofs::Spells::figuring_place))]
fn spell_decimal(n: u64, buffer: &mut [u8; 20]) -> usize
    ensures { EndsIn (decimal_text n) buffer.new result }
{
    let mut rest = n;
    for i in (0..20).rev() {
        buffer[i] = b'0' + (rest % 10) as u8;
        rest /= 10;
        if rest == 0 {
            return i;
        }
    }
    0
}

pub fn put_decimal(out: &mut [u8], at: usize, n: u64) -> usize
    ensures { PutAs (decimal_text n) out.old at out.new result }
{
    let mut buffer = [0u8; 20];
    let from = spell_decimal(n, &mut buffer);
    put_literal(out, at, &buffer[from..])
}

fn glyph(d: u32) -> u8
    requires { d < 16 }
    ensures { result ≡ glyph_of d }
{
    if d < 10 {
        b'0' + d as u8
    } else {
        b'A' + (d - 10) as u8
    }
}

// From the last digit to the first.
fn spell_word(n: u32) -> [u8; 8]
    ensures { result ≡ word_text n }
{
    let mut digits = [0; 8];
    let mut rest = n;
    for i in (0..8).rev() {
        digits[i] = glyph(rest % 16);
        rest /= 16;
    }
    digits
}

pub fn put_word(out: &mut [u8], at: usize, n: u32) -> usize
    ensures { PutAs (word_text n) out.old at out.new result }
{
    put_literal(out, at, &spell_word(n))
}
