// The rules in the words of loops over the slots, and as facts on numbers: laws that the code's proofs cite; no functions.
#![tactic(auto)]
