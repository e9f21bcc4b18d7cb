// Every laying of a film on its own positions, as a list, and the smallest worst time among them: definitions, laws and claims without code.
#![tactic(auto)]

ghost use Rattle.std.specs.Prelude.{◌≡◌, List, ℕ, ◌≤◌, length};
ghost use Rattle.laws.specs.Members.{In, Unique};
ghost use Rattle.card.specs.declared.Figures.{Figures};
ghost use Rattle.card.specs.Card.{Legal};
ghost use Rattle.placement.specs.Showing.{Showing, visits_of};
ghost use Rattle.plan.specs.Plan.{worst2_of};
ghost use Rattle.layings.specs.Layings.{layings, OnFilm, listed, laid, least_of};

// The list has every laying on the film's positions, nothing else, and each once.
pub fn every_laying_is_tried()
    ensures every { (P N : ℕ) → N ≤ P → (l : ℕ → ℕ) → OnFilm P N l → In (listed l N) (layings P N) }
    ensures only { (P N : ℕ) → N ≤ P → (ys : List ℕ) → In ys (layings P N) → (length ys ≡ N) × OnFilm P N (laid ys) }
    ensures once { (P N : ℕ) → Unique (layings P N) }
{}

// The smallest worst time of all these layings is the planner's worst2 of a shelf with one film, for one showing and for a loop.
pub fn smallest_is_the_planners()
    ensures { (x : Showing) → visits_of x ≡ 1 → (f : Figures) → Legal 1 f → f.films ≡ 1 → least_of x f ≡ worst2_of x f }
{}
