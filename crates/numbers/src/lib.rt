// The numbers of document 01 by name: the limits of its figures, the units of its formulas, its refusal numbers, and the kinds and phases
// of a desk; and the showings of document 02. The definitions have the same names in `specs`; a contract that names one ties the two.
#![tactic(auto)]

pub mod limits; // the greatest and least figures
pub mod refusals; // why a call is turned down
pub mod showings; // once through, or a loop
pub mod slots; // the kinds of a slot and the phases of a desk
pub mod units; // what rates and times are compared in
