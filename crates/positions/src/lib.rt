// The layings of one showing and of a loop: the position of a block. Half blocks are laid as one showing of twice as many.
#![tactic(auto)]

ghost use Rattle.std.specs.Prelude.{◌≡◌, ◌≤◌, ◌<◌};
ghost use Rattle.numbers.specs.Limits.{max_positions};
ghost use Rattle.placement.specs.Placement.{zigzag};
ghost use Rattle.placement.specs.Circle.{falls, rank, ring};
ghost use Rattle.placement.specs.Showing.{laying};
ghost use Rattle.plan.specs.Plan.{walk_of};
ghost use Rattle.positions.specs.Position.{Position};

use numbers::showings::LOOP;

// The position of block b of a film shown once, or of the one that would follow the last; `total` is P.
fn once_position(total: u32, blocks: u32, b: u32) -> u32
    requires { (0 < blocks) × (blocks ≤ total) × (b ≤ blocks) }
    ensures { Position total blocks (zigzag total blocks) b result }
{
    if b % 2 == 0 {
        return total - blocks + b / 2;
    }
    total - 1 - b / 2
}

// Does the rank of block b of a loop fall as b rises?
fn rank_falls(blocks: u32, b: u32) -> bool
    requires { (b ≤ blocks) × (blocks ≤ max_positions) }
    ensures { result ≡ falls blocks b }
{
    if 2 * b <= blocks {
        return b % 2 == 1;
    }
    (blocks - b) % 2 == 0
}

// The rank of block b of a loop among the film's positions, slowest first; past the last block comes the first.
fn loop_rank(blocks: u32, b: u32) -> u32
    requires { (b ≤ blocks) × (blocks ≤ max_positions) }
    ensures { result ≡ rank blocks b }
{
    if rank_falls(blocks, b) {
        return blocks - b;
    }
    if b == 0 {
        return 0;
    }
    b - 1
}

// The position of block b of a loop, or of the first one past the last; `total` is P.
fn loop_position(total: u32, blocks: u32, b: u32) -> u32
    requires { (0 < blocks) × (blocks ≤ total) × (b ≤ blocks) × (total ≤ max_positions) }
    ensures { Position total blocks (ring total blocks) b result }
{
    total - blocks + loop_rank(blocks, b)
}

// The laying of a showing: the position of block b, or of the one past the last; `total` is P.
pub fn position_of(showing: u32, total: u32, blocks: u32, b: u32) -> u32
    requires { (0 < blocks) × (blocks ≤ total) × (b ≤ blocks) × (total ≤ max_positions) }
    ensures { Position total blocks (laying (walk_of showing) total blocks) b result }
{
    if showing == LOOP {
        return loop_position(total, blocks, b);
    }
    once_position(total, blocks, b)
}
