// The kinds of a slot; document 01 calls waiting asked, and draining tail.
pub const FREE: u32 = 0;

pub const WAITING: u32 = 1;

pub const FILLING: u32 = 2;

pub const PLAYING: u32 = 3;

pub const DRAINING: u32 = 4;

// The phases of a desk.
pub const BETWEEN: u32 = 0;

pub const SWEEPING: u32 = 1;
