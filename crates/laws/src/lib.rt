// Definitions and laws of tests, lists and greatest values that several crates cite; no functions.
#![tactic(auto)]
