// What the judge of a record refuses nothing of, as plain facts: its laws; no functions.
#![tactic(auto)]
