//! What the case programs read alike on the lines of their input: numbers and bytes. Each is told for every text,
//! so that a slip in a script has a meaning of its own.
#![tactic(auto)]

ghost use Rattle.std.specs.Prelude.{◌≡◌, ◌≤◌};
ghost use Rattle.script.specs.Script.{with_digit, number_of, byte_of, digit_at};

/// The number whose decimal digits a text has, the highest first; 0 where it has none. What is no digit does not
/// count, nor does a digit that would bring the number beyond `most`.
#[tactic(auto, unfolding(crate::specs::Script::number_from))]
pub fn number(text: &[u8], most: u64) -> u64
    ensures { (result ≡ number_of most text.now) × (result ≤ most) }
{
    let mut value = 0;
    for byte in text {
        value = with_digit(value, *byte, most);
    }
    value
}

fn with_digit(value: u64, byte: u8, most: u64) -> u64
    ensures { (result ≡ with_digit most value byte) × (value ≤ most → result ≤ most) }
{
    let Some(unit) = char::from(byte).to_digit(10) else {
        return value;
    };
    match value.checked_mul(10) {
        Some(tens) => match tens.checked_add(u64::from(unit)) {
            Some(next) if next <= most => next,
            _ => value,
        },
        None => value,
    }
}

/// The byte whose two hex digits a text begins with, lower case. What is no such digit, or is not there, is 0: the case programs
/// do so on every line.
pub fn byte(digits: &[u8]) -> u8
    ensures { result ≡ byte_of digits.now }
{
    16 * digit_at(digits, 0) + digit_at(digits, 1)
}

fn digit_at(digits: &[u8], place: usize) -> u8
    ensures { result ≡ digit_at digits.now place }
{
    match digits.get(place) {
        Some(b @ b'0'..=b'9') => b - b'0',
        Some(b @ b'a'..=b'f') => b - b'a' + 10,
        _ => 0,
    }
}
