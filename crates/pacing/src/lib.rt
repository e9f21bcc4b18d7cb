// Films whose successive blocks stay within a worst time: leads, margin, streams and buffer; no functions.
#![tactic(auto)]
