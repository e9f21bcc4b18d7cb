// The formula of streams, the buffer and the leads, in 32 and 64 bits.
#![tactic(auto)]

mod halves; // the products of halves

ghost use Rattle.std.specs.Prelude.{◌≡◌, ℕ, ◌+◌, ◌-◌, ◌*◌, ◌/◌, ◌≤◌, ◌<◌, get_or};
ghost use Rattle.numbers.specs.Limits.{max_number, max_time, max_streams};
ghost use Rattle.pacing.specs.Streams.{overhead, two_sweeps, streams, buffer_of};
ghost use Rattle.streams.specs.Ranges.{Ranges};

use crate::halves::{lower, times_half, upper};
use numbers::limits::MAX_STREAMS;
use numbers::units::PARTS;

// The product of two numbers of 32 bits, made of products of their halves. Every product that may pass 32 bits goes through it.
pub fn product(a: u32, b: u32) -> u64
    ensures { result ≡ a * b }
{
    (times_half(a, upper(b)) << 16) + times_half(a, lower(b))
}

// The overhead of a sweep of `count` visits: the table's entry.
pub fn overhead(table: &[u32; 257], count: u32) -> u32
    requires { count ≤ max_streams }
    ensures { result ≡ get_or table.now count 0 }
{
    table[count as usize]
}

// The longest that two successive sweeps of n blocks take, each block visited so often: n × worst2 + 2 × overhead.
pub fn two_sweeps(worst2: u32, table: &[u32; 257], n: u32, visits: u32) -> u32
    requires { (Ranges visits worst2 table.now) × (visits * n ≤ max_streams) }
    ensures { result ≡ two_sweeps worst2 (λ k. overhead table.now (visits * k)) n }
{
    n * worst2 + 2 * overhead(table, visits * n)
}

// The highest number of streams that is worth a try, at most `most`: above it the blocks alone take more time than there is.
fn highest_tried(room: u64, worst2: u32, most: u32) -> u32
    ensures { (result ≤ most) × ((k : ℕ) → result < k → k ≤ most → room < k * worst2) }
{
    if worst2 == 0 {
        return most;
    }
    let fit = room / (worst2 as u64);
    if fit < (most as u64) {
        return fit as u32;
    }
    most
}

// The greatest number that meets the formula, from 1 to as many streams as have 256 visits; 0 where none does. c × a time is at most
// 2,000,000 × B exactly where the time is at most the quotient of the two, so that no try forms a product with c.
pub fn count_streams(rate: u32, worst2: u32, table: &[u32; 257], bytes: u32, visits: u32) -> u32
    requires { (Ranges visits worst2 table.now) × (0 < rate) × (0 < visits) }
    ensures { result ≡ streams (max_streams / visits) rate worst2 (λ k. overhead table.now (visits * k)) bytes }
{
    let room = product(PARTS, bytes) / (rate as u64);
    let mut n: u32 = highest_tried(room, worst2, MAX_STREAMS / visits);
    loop {
        if n == 0 {
            break 0;
        }
        if (two_sweeps(worst2, table, n, visits) as u64) <= room {
            break n;
        }
        n -= 1;
    }
}

// The buffer: 3 × B plus c × n × margin / 2,000,000, rounded up.
pub fn buffer_size(rate: u32, n: u32, margin: u32, bytes: u32) -> u32
    requires { (n ≤ max_streams) × (margin ≤ 2 * max_time) × (buffer_of rate n margin bytes ≤ max_number) }
    ensures { result ≡ buffer_of rate n margin bytes }
{
    let parts = PARTS as u64;
    3 * bytes + ((product(rate, n * margin) + (parts - 1)) / parts) as u32
}

// The lead of a block that takes `time`, in half microseconds.
pub fn lead(time: u32, worst2: u32) -> u32
    requires { time ≤ 2 * max_time }
    ensures { result ≡ 2 * time - worst2 }
{
    let twice = 2 * time;
    if twice < worst2 {
        return 0;
    }
    twice - worst2
}
