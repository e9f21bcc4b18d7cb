// Lists of 32-bit numbers in lent byte strings: four bytes an entry, lowest byte first, no padding. Spare bytes at the end are ignored and kept.
#![tactic(auto, using(crate::specs::Laws::words_length))]

ghost use Rattle.std.specs.Prelude.{◌≡◌, ◌+◌, ◌*◌, ◌≤◌, ◌<◌, length, get_or, take, drop};
ghost use Rattle.words.specs.Words.{words_of, with_word, with_words, zero_words};

// How many entries a list has.
pub fn entries(list: &[u8]) -> usize
    ensures { result ≡ length (words_of list.now) }
{
    list.len() / 4
}

// The number in the four bytes from `at` on.
fn number_at(list: &[u8], at: usize) -> u32
    requires { at + 3 < length list.now }
    ensures { let s = list.now in result ≡ get_or s at 0 + 256 * get_or s (at + 1) 0 + 65536 * get_or s (at + 2) 0 + 16777216 * get_or s (at + 3) 0 }
{
    u32::from_le_bytes([list[at], list[at + 1], list[at + 2], list[at + 3]])
}

// The entry i.
pub fn word_at(list: &[u8], i: usize) -> u32
    requires { i < length (words_of list.now) }
    ensures { result ≡ get_or (words_of list.now) i 0 }
{
    number_at(list, 4 * i)
}

// Writes v as the entry i.
pub fn put_word(list: &mut [u8], i: usize, v: u32)
    requires { i < length (words_of list.old) }
    ensures { list.new ≡ with_word list.old i v }
{
    let at = 4 * i;
    let [b0, b1, b2, b3] = v.to_le_bytes();
    list[at..at + 4].copy_from_slice(&[b0, b1, b2, b3]);
}

// Fills out with the entries from start on.
fn read_words(list: &[u8], start: usize, out: &mut [u32])
    requires { start + length out.old ≤ length (words_of list.now) }
    ensures { out.new ≡ take (length out.old) (drop start (words_of list.now)) }
{
    for i in 0..out.len() {
        out[i] = word_at(list, start + i);
    }
}

// Writes the numbers of a as the entries from start on.
pub fn write_words(list: &mut [u8], start: usize, a: &[u32])
    requires { 4 * (start + length a.now) ≤ length list.old }
    ensures { list.new ≡ with_words list.old start a.now }
{
    for (i, &v) in a.iter().enumerate() {
        put_word(list, start + i, v);
    }
}

// Writes zero as `count` entries from start on.
pub fn clear_words(list: &mut [u8], start: usize, count: usize)
    requires { 4 * (start + count) ≤ length list.old }
    ensures { list.new ≡ with_words list.old start (zero_words count) }
{
    for i in 0..count {
        put_word(list, start + i, 0);
    }
}

// The N entries from start on.
pub fn read_array<const N: usize>(list: &[u8], start: usize) -> [u32; N]
    requires { start + N ≤ length (words_of list.now) }
    ensures { result ≡ take N (drop start (words_of list.now)) }
{
    let mut a = [0u32; N];
    read_words(list, start, &mut a);
    a
}

// Writes the N numbers of a as the entries from start on.
pub fn write_array<const N: usize>(list: &mut [u8], start: usize, a: &[u32; N])
    requires { 4 * (start + N) ≤ length list.old }
    ensures { (list.new ≡ with_words list.old start a.now) × (length a.now ≡ N) }
{
    write_words(list, start, a);
}
