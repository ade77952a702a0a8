//! Schedules as the input has them. A word is bytes in hex, two digits each, or a number, 'x' and bytes that stand
//! so many times.
use arrayvec::ArrayVec;

/// Room for more bytes than count of a schedule.
pub(crate) const ROOM: usize = 70000;

/// Appends the bytes that words give, as many as find room.
pub(crate) fn put(words: &[u8], bytes: &mut ArrayVec<u8, ROOM>) {
    for word in words.split(|byte| *byte == b' ') {
        put_word(word, bytes);
    }
}

fn put_word(word: &[u8], bytes: &mut ArrayVec<u8, ROOM>) {
    let mut parts = word.splitn(2, |byte| *byte == b'x');
    let first = parts.next().unwrap_or(b"");
    match parts.next() {
        Some(digits) => put_times(digits, leading_number(first), bytes),
        None => put_times(first, 1, bytes),
    }
}

fn put_times(digits: &[u8], times: u32, bytes: &mut ArrayVec<u8, ROOM>) {
    for _ in 0..times {
        if digits.is_empty() || bytes.extend(digits.chunks(2).map(script::byte)).is_err() {
            return;
        }
    }
}

/// The number that a word begins with; 0 where it begins with no digit.
pub(crate) fn leading_number(word: &[u8]) -> u32 {
    let end = word.iter().position(|byte| !byte.is_ascii_digit());
    let digits = &word[..end.unwrap_or(word.len())];
    script::number(digits, u64::from(u32::MAX)) as u32
}
