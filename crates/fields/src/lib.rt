// Records in words, by the tables of their fields, and the laws of any such table; no functions.
#![tactic(auto)]
