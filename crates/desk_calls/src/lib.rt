// What the desk's calls answer on lent byte strings, as definitions; an answer that is a number alone.
#![tactic(auto)]

ghost use Rattle.std.specs.Prelude.{◌≡◌};
ghost use Rattle.desk_calls.specs.Calls.{refused_by};

use card::Verdict;
use layout::{FilmdiskAnswer, verdict_answer};

// An answer that is a number alone.
pub fn number_answer(number: u32) -> FilmdiskAnswer
    ensures { result ≡ refused_by number }
{
    verdict_answer(Verdict { number, place: 0 })
}
