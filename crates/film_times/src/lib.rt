// How long a block takes on each of the film's positions, as a search over layings needs it.
#![tactic(auto)]

ghost use Rattle.std.specs.Prelude.{◌≡◌, map, ℕ, ◌≤◌, take};
ghost use Rattle.laws.specs.Each.{Each};
ghost use Rattle.numbers.specs.Limits.{max_time, max_tried};
ghost use Rattle.card.specs.Card.{Legal, total_positions, length_in};
ghost use Rattle.plan.specs.Plan.{time_on};
ghost use Rattle.layings.specs.Layings.{film_positions};

use card::Figures;
use zones::{sum_positions, time_at};

// The times of the positions of a film that is alone on its shelf, from the innermost on; what is past them is 0.
pub fn film_times(figures: Figures) -> [u32; 8]
    requires { Legal 1 figures × (figures.films ≡ 1) × (length_in figures 0 ≤ max_tried) }
    ensures times { take (length_in figures 0) result ≡ map (time_on figures) (film_positions (total_positions figures) (length_in figures 0)) }
    ensures small { Each (λ (t : ℕ). t ≤ max_time) result }
{
    let total = sum_positions(&figures.positions, figures.zones);
    let blocks = figures.blocks[0];
    let mut times = [0u32; 8];
    for i in 0..blocks {
        times[i as usize] = time_at(&figures.positions, &figures.times, total - blocks + i);
    }
    times
}
