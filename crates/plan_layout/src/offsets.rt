// The word at which each field of a plan starts: where the one before it ends.
use numbers::limits::{MAX_FILMS, MAX_ZONES, TABLE_LENGTH};

pub const KIND: usize = 0;

pub const ZONES: usize = KIND + 1;

pub const POSITIONS: usize = ZONES + 1;

pub const TIMES: usize = POSITIONS + MAX_ZONES as usize;

pub const FILMS: usize = TIMES + MAX_ZONES as usize;

pub const BLOCKS: usize = FILMS + 1;

pub const BYTES: usize = BLOCKS + MAX_FILMS as usize;

pub const RATE: usize = BYTES + 1;

pub const TABLE: usize = RATE + 1;

pub const STREAMS: usize = TABLE + TABLE_LENGTH as usize;

pub const BUFFER: usize = STREAMS + 1;

pub const WORST2: usize = BUFFER + 1;

pub const MARGIN: usize = WORST2 + 1;

pub const SHOWING: usize = MARGIN + 1;

pub const WORSTAT: usize = SHOWING + 1;

pub const PLAN_WORDS: usize = WORSTAT + 1;
