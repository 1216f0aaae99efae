// The form `(midi place status hex)`.

use midi::Cursor;

// The bytes of a stream, filled into `room`: `-` is none, and nothing at all is no stream.
fn bytes<'a>(digits: &[u8], room: &'a mut [u8]) -> Option<&'a [u8]> {
    if matches!(digits, [b'-']) {
        return Some(&[]);
    }
    let (pairs, odd) = digits.as_chunks::<2>();
    if pairs.is_empty() || !odd.is_empty() {
        return None;
    }
    let (stream, _) = room.split_at_mut_checked(pairs.len())?;
    for (byte, pair) in stream.iter_mut().zip(pairs) {
        let (value, _) = text::byte(pair)?;
        *byte = value;
    }
    Some(stream)
}

// The cursor and the stream, where the line has the form. A line of 257 bytes stands for every one that is too long.
pub fn parse_line<'a>(line: &[u8], room: &'a mut [u8]) -> Option<(Cursor, &'a [u8])> {
    if 256 < line.len() {
        return None;
    }
    let parts = line.strip_prefix(b"(midi ")?.strip_suffix(b")")?;
    let (place, behind) = text::decimal(parts, u64::from(u32::MAX))?;
    let (status, behind) = text::byte(behind.strip_prefix(b" ")?)?;
    let digits = behind.strip_prefix(b" ")?;
    let cursor = Cursor {
        place: place as usize,
        status,
    };
    Some((cursor, bytes(digits, room)?))
}
