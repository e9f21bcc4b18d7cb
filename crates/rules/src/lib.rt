// Document 01's rules of the desk over any supply of blocks: the scheduler, its order of granting, its refusals and the book; no functions.
#![tactic(auto)]
