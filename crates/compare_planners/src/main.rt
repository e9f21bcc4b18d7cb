// Runs the planner and the second planner over every small card, for one showing and for a loop, and prints the number of cards and of unequal
// worst2 on one line.
#![tactic(auto)]

mod compare; // both planners on a card, and on all of them

use crate::compare::compare_all;
use std::io;

fn main(rt: HostRuntime) -> io::Result<()> {
    let tally = compare_all();
    println!(rt; "{} {}", tally.cards, tally.unequal)
}
