// The word of a plan that says which showing it is: once through, round and round, or once through in half blocks.
pub const ONCE: u32 = 0;

pub const LOOP: u32 = 1;

pub const PAIRS: u32 = 2;
