// Every list of calls is safe, over any lawful supply and any lawful order of granting; no functions.
#![tactic(auto)]
