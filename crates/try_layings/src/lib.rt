// The search behind the second planner: every order of up to eight times is tried, and the smallest worst time kept with how many orders have
// it. It knows no disk and no laying rule.
#![tactic(auto)]

mod orders; // the orders of some times, by number
mod worst; // the worst time of one order

ghost use Rattle.std.specs.Prelude.{◌≡◌, List, ◌++◌, ◌∷◌, [], ℕ, ◌≤◌, ◌<◌, take};
ghost use Rattle.laws.specs.Each.{Each};
ghost use Rattle.numbers.specs.Limits.{max_number, max_time, max_tried};
ghost use Rattle.plan.specs.Plan.{walk_of};
ghost use Rattle.layings.specs.Layings.{smallest, how_many};
ghost use Rattle.layings.specs.Smallest.{Best};
ghost use Rattle.layings.specs.Times.{orders_tried};

use crate::orders::{factorial, order};
use crate::worst::worst_of;
use numbers::limits::MAX_NUMBER;

// A search so far: the smallest worst time, before the first order the greatest number, and how many orders have it.
#[derive(Clone, Copy)]
pub struct Search {
    pub least: u32,
    pub count: u32,
}

// One more order, of this worst time.
fn met(found: Search, time: u32) -> Search
    requires { (time < max_number) × (found.count < max_number) }
    ensures { (ws : List ℕ) → Best ws found.least found.count → Best (ws ++ (time ∷ [])) result.least result.count }
{
    if time < found.least {
        return Search {
            least: time,
            count: 1,
        };
    }
    if found.least < time {
        return found;
    }
    Search {
        least: found.least,
        count: found.count + 1,
    }
}

// Tries every order of the first `blocks` times, as a film of so many blocks of one visit each, round and round where the showing is a loop.
pub fn try_layings(times: [u32; 8], blocks: u32, showing: u32) -> Search
    requires { (1 < blocks) × (blocks ≤ max_tried) × Each (λ (t : ℕ). t ≤ max_time) times }
    ensures least { result.least ≡ smallest (orders_tried (walk_of showing) blocks (take blocks times)) }
    ensures count { result.count ≡ how_many result.least (orders_tried (walk_of showing) blocks (take blocks times)) }
{
    let total = factorial(blocks);
    let mut found = Search {
        least: MAX_NUMBER,
        count: 0,
    };
    for number in 0..total {
        let row = order(times, blocks, number);
        found = met(found, worst_of(row, blocks, showing));
    }
    found
}
