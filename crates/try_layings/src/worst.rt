// The worst time of one order.
ghost use Rattle.std.specs.Prelude.{◌≡◌, ℕ, ◌*◌, ◌≤◌, ◌<◌};
ghost use Rattle.laws.specs.Each.{Each};
ghost use Rattle.numbers.specs.Limits.{max_tried, max_time};
ghost use Rattle.placement.specs.Circle.{round};
ghost use Rattle.placement.specs.Showing.{pairs_of};
ghost use Rattle.plan.specs.Plan.{walk_of};
ghost use Rattle.layings.specs.Layings.{worst_in};

use numbers::showings::LOOP;

// The block after b of a loop.
fn next_block(blocks: u32, b: u32) -> u32
    requires { (b < blocks) × (blocks ≤ max_tried) }
    ensures { result ≡ round blocks b }
{
    if b + 1 == blocks {
        return 0;
    }
    b + 1
}

// How many pairs of successive blocks a film has: a loop one more.
fn count_pairs(blocks: u32, showing: u32) -> u32
    requires { 1 < blocks }
    ensures { result ≡ pairs_of (walk_of showing) blocks }
{
    if showing == LOOP {
        return blocks;
    }
    blocks - 1
}

// The worst time of two successive blocks; the row has each block's time.
pub fn worst_of(row: [u32; 8], blocks: u32, showing: u32) -> u32
    requires { (1 < blocks) × (blocks ≤ max_tried) × Each (λ (t : ℕ). t ≤ max_time) row }
    ensures worst { result ≡ worst_in (walk_of showing) (λ t. t) blocks row }
    ensures small { result ≤ 2 * max_time }
{
    let pairs = count_pairs(blocks, showing);
    let mut worst: u32 = 0;
    for b in 0..pairs {
        let here = b as usize;
        let next = next_block(blocks, b) as usize;
        worst = worst.max(row[here] + row[next]);
    }
    worst
}
