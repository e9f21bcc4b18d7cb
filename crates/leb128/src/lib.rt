// One number of a card: groups of seven bits, lowest first, in the shortest form, at most five bytes and at most 4,294,967,295.
#![tactic(auto)]

ghost use Rattle.std.specs.Prelude.{◌≡◌, ◌+◌, ◌-◌, ◌*◌, ◌≤◌, ◌<◌, ◌^◌, length};
ghost use Rattle.leb128.specs.Number.{number_at, groups, judged};
ghost use Rattle.laws.specs.Overwrite.{overwrite};

use numbers::limits::NO_NUMBER;

// The number at an offset, or why there is none.
#[derive(Clone, Copy)]
pub enum Number {
    // Its value and the offset after it.
    Value(u32, usize),
    // The bytes end within it; their length.
    CutOff(usize),
    // Not the shortest form, over five bytes or too great; its offset.
    Malformed(usize),
}

// The number that ends with the group b, which stands `shift` bits up.
fn last_group(start: usize, at: usize, sum: u64, shift: u64, b: u64) -> Number
    requires { (start ≤ at) × (shift < 64) × (sum + b * 2 ^ shift < 2 ^ 64) × (at + 1 < 2 ^ 64) }
    ensures { result ≡ judged start (at - start) b (sum + b * 2 ^ shift) }
{
    if at != start {
        if b == 0 {
            return Number::Malformed(start);
        }
    }
    let value = sum + (b << shift);
    if value < NO_NUMBER {
        Number::Value(value as u32, at + 1)
    } else {
        Number::Malformed(start)
    }
}

// The number that starts at an offset.
pub fn read_number(s: &[u8], start: usize) -> Number
    ensures { result ≡ number_at s.now start }
{
    let mut sum: u64 = 0;
    let mut shift: u64 = 0;
    let mut at = start;
    for turn in 0..5u8 {
        if s.len() <= at {
            return Number::CutOff(s.len());
        }
        let b = s[at] as u64;
        if b < 128 {
            return last_group(start, at, sum, shift, b);
        }
        sum += (b % 128) << shift;
        shift += 7;
        at += 1;
    }
    Number::Malformed(start)
}

// How many bytes a number takes.
pub fn number_length(v: u32) -> usize
    ensures { (result ≡ length (groups v)) × (result ≤ 5) }
{
    let mut rest = v;
    let mut count: usize = 1;
    while 128 <= rest {
        rest /= 128;
        count += 1;
    }
    count
}

// Writes a number from an offset on and answers the offset after it.
pub fn write_number(out: &mut [u8], start: usize, v: u32) -> usize
    requires { start + length (groups v) ≤ length out.old }
    ensures { (result ≡ start + length (groups v)) × (out.new ≡ overwrite out.old start (groups v)) }
{
    let mut rest = v;
    let mut at = start;
    while 128 <= rest {
        out[at] = (rest % 128 + 128) as u8;
        rest /= 128;
        at += 1;
    }
    out[at] = rest as u8;
    at + 1
}
