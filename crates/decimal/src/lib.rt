// Numbers in decimal in a text of bytes. A value is kept up to 4,294,967,295; NO_NUMBER stands for every greater one.
#![tactic(auto)]

ghost use Rattle.std.specs.Prelude.{◌≡◌};
ghost use Rattle.decimal.specs.Decimal.{is_digit, grown, digits_at, number_at, capped_number};

use numbers::limits::NO_NUMBER;

// Is the byte a decimal digit?
pub fn is_digit(byte: u8) -> bool
    ensures { result ≡ is_digit byte }
{
    byte.is_ascii_digit()
}

// The value of digits with a byte more; a byte that is no digit makes no number.
pub fn grow(value: u64, byte: u8) -> u64
    ensures { result ≡ grown value byte }
{
    if !is_digit(byte) {
        return NO_NUMBER;
    }
    if NO_NUMBER <= value {
        return NO_NUMBER;
    }
    // Ten times the value by shifts: a product of 64 bits has no place in a library crate.
    let next = (value << 3) + (value << 1) + (byte - b'0') as u64;
    next.min(NO_NUMBER)
}

// The digits from an offset on: their value, and the offset after them.
fn read_digits(text: &[u8], start: usize) -> (u64, usize)
    ensures { result ≡ digits_at text.now start }
{
    let mut value: u64 = 0;
    let mut next = start;
    for at in start..text.len() {
        if !is_digit(text[at]) {
            break;
        }
        value = grow(value, text[at]);
        next += 1;
    }
    (value, next)
}

// The number without leading zeros at an offset, and the offset after it.
pub fn read_number(text: &[u8], start: usize) -> Option<(u64, usize)>
    ensures { result ≡ capped_number (number_at text.now start) }
{
    let (value, next) = read_digits(text, start);
    let count = next - start;
    if count == 0 {
        return None;
    }
    if count == 1 {
        return Some((value, next));
    }
    if text[start] == b'0' {
        return None;
    }
    Some((value, next))
}
