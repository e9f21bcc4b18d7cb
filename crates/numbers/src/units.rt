// Leads are half microseconds, so a rate times a lead is in two-millionths of a byte: what is compared with it is taken times this.
pub const PARTS: u32 = 2000000;

// Microseconds in a second.
pub const MICROS: u64 = 1000000;

// Microseconds in a minute.
pub const MINUTE: u32 = 60000000;

// Bytes of a sector.
pub const SECTOR_BYTES: u32 = 512;
