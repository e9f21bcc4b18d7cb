// Where the blocks of a film lie, and that no laying has a smaller worst time; no functions.
#![tactic(auto)]
