// The greatest and least figures of a card, and of a desk.
// The kinds of a card: overheads by hop and return, or one by one.
pub const STRAIGHT: u32 = 1;

pub const MEASURED: u32 = 2;

// Any number of a card.
pub const MAX_NUMBER: u32 = 4294967295;

// The least that is none.
pub const NO_NUMBER: u64 = 4294967296;

pub const MAX_ZONES: u32 = 64;

// P, the positions of all zones.
pub const MAX_POSITIONS: u32 = 1048576;

// The time of a zone, in microseconds.
pub const MAX_TIME: u32 = 4000000;

// No zone is over so many times as fast as the first.
pub const TIMES_AS_FAST: u32 = 3;

// N, the blocks of a film.
pub const MIN_BLOCKS: u32 = 2;

pub const MAX_BLOCKS: u32 = 16384;

// The films of a shelf; together they have as many blocks as one film may have.
pub const MAX_FILMS: u32 = 16;

// A slot's word for film and next block: so many times the film, and the block, which is less.
pub const NAME_STEP: u32 = 65536;

// B, the bytes of a block.
pub const MAX_BYTES: u32 = 4194304;

// c, the top rate in bytes a second.
pub const MAX_RATE: u32 = 10000000;

// Hop and return, each, in microseconds.
pub const MAX_MOVE: u32 = 1000000;

// The entries of a table of overheads, for sweeps of 0 to 256 blocks.
pub const TABLE_LENGTH: u32 = 257;

// The overhead of a sweep, in microseconds.
pub const MAX_OVERHEAD: u32 = 257000000;

// The bytes of a card.
pub const MIN_CARD: u32 = 10;

pub const MAX_CARD: u32 = 1519;

// n, and the slots of a desk.
pub const MAX_STREAMS: u32 = 256;

// Blocks of a window.
pub const MAX_WINDOW: u32 = 64;

// A maker's text: turns a minute, track switch time in microseconds, heads and sectors in a block of its first line.
pub const MAX_TURNS: u32 = 30000;

pub const MAX_SWITCH: u32 = 100000;

pub const MAX_HEADS: u32 = 32;

pub const MAX_BLOCK: u32 = 8192;

// The last cylinder and the sectors a track of a row.
pub const MAX_CYLINDER: u32 = 999999;

pub const MAX_TRACK: u32 = 10000;

// The blocks of a film of which every laying is tried.
pub const MAX_TRIED: u32 = 8;

// The numbers of a scratch in place of the lead list.
pub const SCRATCH_LENGTH: u32 = 512;

// The joins and leaves of a batch.
pub const MAX_ITEMS: u32 = 512;
