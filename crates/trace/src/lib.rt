// Demand 3 of the customer: one claim about every list of calls from an accepted opening, and one about any record. How long a request waits in
// such a list. And what the desk's calls answer, in document 01's words.
#![tactic(auto)]

ghost use Rattle.std.specs.Prelude.{◌≡◌, ℕ, ◌≤◌, ◌<◌, min, true, List, [], length, get_or};
ghost use Rattle.numbers.specs.Limits.{scratch_length};
ghost use Rattle.numbers.specs.Refusals.{too_short, draw_above_limit, draw_above_held};
ghost use Rattle.words.specs.Words.{Bytes, words_of};
ghost use Rattle.card.specs.declared.Figures.{Figures};
ghost use Rattle.card.specs.declared.CardRead.{CardRead};
ghost use Rattle.card.specs.Card.{Legal, blocks_of};
ghost use Rattle.card.specs.Read.{read_card};
ghost use Rattle.legality.specs.Legality.{Wide};
ghost use Rattle.placement.specs.Showing.{Showing, visits_of};
ghost use Rattle.pacing.specs.Film.{Film, Paced};
ghost use Rattle.plan.specs.declared.Plan.{Plan};
ghost use Rattle.plan.specs.Plan.{plan_of};
ghost use Rattle.plan.specs.Answer.{refusal, planned, positions_after, leads_after, judged, has_leads};
ghost use Rattle.plan.specs.Scratch.{planned_scratch, positions_scratch};
ghost use Rattle.rules.specs.Supply.{Lawful, Named};
ghost use Rattle.rules.specs.Order.{by_place};
ghost use Rattle.rules.specs.Kinds.{kind_after};
ghost use Rattle.rules.specs.Calls.{Given};
ghost use Rattle.rules.specs.Sound.{sound};
ghost use Rattle.safety.specs.Claim.{Safe as RuledSafe};
ghost use Rattle.desk.specs.Supply.{Rates, supplied, Rated};
ghost use Rattle.desk.specs.declared.Desk.{Desk};
ghost use Rattle.desk.specs.Desk.{supply_of, order_of, view_of, fresh_desk, open_desk, begin_desk, end_desk, fetch_list_after};
ghost use Rattle.desk.specs.Scratch.{open_scratch, begin_scratch, fetch_list_scratch};
ghost use Rattle.desk.specs.Entries.{entries_in};
ghost use Rattle.desk.specs.View.{Wide as WideDesk};
ghost use Rattle.trace.specs.Answers.{Opens, Fetched, draw_at, may_draw, LowestAbove};
ghost use Rattle.trace.specs.List.{Lent, called};
ghost use Rattle.trace.specs.Safe.{Safe, on_record};
ghost use Rattle.trace.specs.Wait.{IsLeast, InTime, InAskingOrder};
ghost use Rattle.trace.specs.ScratchLaws.{EqualTo, RefusedFor};

// From an accepted opening of a plan of any showing every list of joins, leaves, begins and ends is safe, refused calls included. (Wide: the
// record has 64 zone entries, as a value of its type has.)
pub fn every_list_safe()
    ensures { (p : Plan) (positions leads : List ℕ) → Wide p.figures → (open_desk p positions leads).verdict.number ≡ 0
        → ((open_desk p positions leads).desk ≡ fresh_desk p) × ((xs : List Lent) → Safe p (on_record p) xs) }
{}

// Ticket 5 of document 02: places follow the order of asking, in every list from an accepted opening.
pub fn places_follow_the_asking()
    ensures { (p : Plan) (ps ls : List ℕ) → Wide p.figures → (open_desk p ps ls).verdict.number ≡ 0 → InAskingOrder (on_record p) }
{}

// Ticket 5 of document 02: a request that stays is granted at the latest at the first accepted begin after G finished sweeps since it became
// the eldest, in every list from an accepted opening.
pub fn request_is_granted_in_time()
    ensures { (p : Plan) (ps ls : List ℕ) → Wide p.figures → (open_desk p ps ls).verdict.number ≡ 0
        → (G : ℕ) → IsLeast p G → InTime (on_record p) G }
{}

// That G is 1, or 0 where there is no margin: in every plan of legal figures, of every showing, and so in every plan that is opened.
pub fn wait_is_at_most_one_sweep()
    ensures planned { (x : Showing) (f : Figures) → Legal (visits_of x) f → IsLeast (plan_of x f) (min 1 (plan_of x f).margin) }
    ensures opened { (p : Plan) (ps ls : List ℕ) → Wide p.figures → (open_desk p ps ls).verdict.number ≡ 0 → IsLeast p (min 1 p.margin) }
{}

// The facts on floors are of any film whose successive pairs stay within a worst time, with rates within the formulas of streams, margin and
// buffer: what the desk is told of it keeps the planner's promise, and every list of calls under the rules is safe. A film shown once, one
// that goes round and one of half blocks are three of them.
pub fn paced_film_is_safe()
    ensures lawful { (film : Film ℕ) (w m : ℕ) (r : Rates) → Paced film w m → Rated film w r m → Lawful (supplied film w r) }
    ensures safe { (film : Film ℕ) (w m : ℕ) (r : Rates) → Paced film w m → Rated film w r m → Named (supplied film w r) → (gs : List (Given ℕ))
        → RuledSafe (supplied film w r) (by_place (supplied film w r)) (kind_after (supplied film w r)) gs }
{}

// An accepted call on any record, not only on one that a list reached, leaves a sound record.
pub fn accepted_call_stays_sound()
    ensures { (d : Desk) (x : Lent) → Wide d.plan.figures → (called d x).number ≡ 0
        → sound (supply_of d.plan) (order_of d.plan) (view_of (called d x).desk) ≡ true }
{}

// What the planner leaves can be opened, in every showing: of an accepted card, and of an accepted record. With a scratch, opened with one.
pub fn planned_film_opens()
    ensures card { (x : Showing) (s ps ls : List ℕ) → Bytes s → (let c = read_card (visits_of x) s in (planned x c ps ls).verdict.number ≡ 0
        → Opens (planned x c ps ls).plan (positions_after x c ps ls) (leads_after x c ps ls)) }
    ensures record { (x : Showing) (f : Figures) (ps ls : List ℕ) → Wide f → (let r = judged (visits_of x) f in (planned x r ps ls).verdict.number ≡ 0
        → Opens (planned x r ps ls).plan (positions_after x r ps ls) (leads_after x r ps ls)) }
    ensures scratch { (x : Showing) (r : CardRead) (ps s t : List ℕ) → (r.verdict.number ≡ 0 → Legal (visits_of x) r.figures)
        → (planned_scratch x r ps s).verdict.number ≡ 0 → scratch_length ≤ length (words_of t) → (let p = (planned_scratch x r ps s).plan in
        let a = open_scratch p (positions_scratch x r ps s) t in (a.verdict.number ≡ 0) × (a.desk ≡ fresh_desk p)) }
{}

// An accepted begin fetches one block for each filling or playing slot with room and no other, with an entry for each visit to it, by rising
// position, then slot.
pub fn fetches_are_whole()
    ensures { (d : Desk) (positions leads : List ℕ) (room : ℕ) → (begin_desk d positions leads room).verdict.number ≡ 0
        → Fetched (begin_desk d positions leads room).desk (entries_in (begin_desk d positions leads room).fetches) }
{}

// A refused draw is named by its slot, the lowest such: 20 above what the slot may draw, 21 above what it holds.
pub fn refused_draw_is_the_lowest()
    ensures limit { (d : Desk) (positions leads draws : List ℕ) → WideDesk d → (end_desk d positions leads draws).verdict.number ≡ draw_above_limit
        → LowestAbove (may_draw d) (draw_at draws) (end_desk d positions leads draws).verdict.place }
    ensures held { (d : Desk) (positions leads draws : List ℕ) → WideDesk d → (end_desk d positions leads draws).verdict.number ≡ draw_above_held
        → LowestAbove (λ i. get_or d.held i 0) (draw_at draws) (end_desk d positions leads draws).verdict.place }
{}

// A refused call leaves all that it was given. A join, leave, begin or end answers the very desk, and no entries; a begin leaves the byte
// string that is lent for its fetches (a list of entries: crate fetch_list); a planner call leaves both lists, in every showing. With a
// scratch the same.
pub fn refused_call_leaves_all()
    ensures desk { (d : Desk) (x : Lent) → WideDesk d → ((called d x).number ≡ 0 → ⊥) → ((called d x).desk ≡ d) × ((called d x).entries ≡ []) }
    ensures fetches { (d : Desk) (ps ls : List ℕ) (room : ℕ) (F : List ℕ) → ((begin_desk d ps ls room).verdict.number ≡ 0 → ⊥)
        → fetch_list_after d ps ls room F ≡ F }
    ensures planner { (x : Showing) (r : CardRead) (ps ls : List ℕ) → ((planned x r ps ls).verdict.number ≡ 0 → ⊥)
        → (positions_after x r ps ls ≡ ps) × (leads_after x r ps ls ≡ ls) }
    ensures scratch { (x : Showing) (r : CardRead) (ps s : List ℕ) → ((planned_scratch x r ps s).verdict.number ≡ 0 → ⊥)
        → positions_scratch x r ps s ≡ ps }
    ensures scratched { (d : Desk) (ps s : List ℕ) (room : ℕ) (F : List ℕ) → ((begin_scratch d ps s room).verdict.number ≡ 0 → ⊥)
        → fetch_list_scratch d ps s room F ≡ F }
{}

// A scratch of 512 numbers or more (ticket 10 of document 02): each call answers, and leaves, what it does with the full list of leads. The
// planner's list has room for N entries, the desk's begins with the film's N leads.
pub fn scratch_equals_list()
    ensures planner { (x : Showing) (r : CardRead) (ps s ls : List ℕ) → scratch_length ≤ length (words_of s) → blocks_of r.figures ≤ length (words_of ls)
        → (planned_scratch x r ps s ≡ planned x r ps ls) × (positions_scratch x r ps s ≡ positions_after x r ps ls) }
    ensures opens { (p : Plan) (ps ls s : List ℕ) → Wide p.figures → scratch_length ≤ length (words_of s) → has_leads p ls ≡ true
        → open_scratch p ps s ≡ open_desk p ps ls }
    ensures desk { (d : Desk) (ps ls s : List ℕ) → Wide d.plan.figures → scratch_length ≤ length (words_of s) → has_leads d.plan ls ≡ true
        → EqualTo d ps ls s }
{}

// A scratch below 512 is 13: of the planner where 13 stands, after the refusals of the figures and before 12; of the desk ahead of all else.
pub fn short_scratch_is_refused()
    ensures planner { (x : Showing) (r : CardRead) (ps s : List ℕ) → length (words_of s) < scratch_length → 0 < blocks_of r.figures
        → r.verdict.number ≡ 0 → (planned_scratch x r ps s ≡ refusal too_short 0) × (positions_scratch x r ps s ≡ ps) }
    ensures desk { (d : Desk) (ps s : List ℕ) → length (words_of s) < scratch_length → RefusedFor d ps s }
{}
