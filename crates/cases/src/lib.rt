// The worked cases of documents 01 and 02 that are shown of the definitions, as one claim.
#![tactic(auto)]

ghost use Rattle.cases.specs.Cases.{Cases};

// Every row marked (p) holds. A claim with no code: a row that is changed or dropped fails the check.
pub fn worked_cases()
    ensures { Cases }
{}
