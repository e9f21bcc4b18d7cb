// The word at which each field of a desk starts, its plan in front: where the one before it ends.
use numbers::limits::MAX_STREAMS;
use plan_layout::offsets::PLAN_WORDS;

pub const PHASE: usize = PLAN_WORDS;

pub const KINDS: usize = PHASE + 1;

pub const NEXT: usize = KINDS + MAX_STREAMS as usize;

pub const HELD: usize = NEXT + MAX_STREAMS as usize;

pub const PLACES: usize = HELD + MAX_STREAMS as usize;

pub const DESK_WORDS: usize = PLACES + MAX_STREAMS as usize;

// The words behind its plan.
pub const SLOT_WORDS: usize = DESK_WORDS - PLAN_WORDS;
