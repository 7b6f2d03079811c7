// Every limit of the register, once.

// One certificate stands for one megawatt-hour.
pub const CERTIFICATE_WATT_HOURS: u64 = 1_000_000;

// Certificate numbers run from 1 to this one.
pub const MAX_CERTIFICATE_NUMBER: u64 = 999_999_999_999;

// The most watt-hours that one declaration may report.
pub const MAX_ENERGY: u64 = 1_000_000_000_000;

// Account numbers run from 1 to this one, under each pair of letters.
pub const MAX_ACCOUNT_NUMBER: u32 = 999_999;

// A member's totals stop here.
pub const MAX_TOTAL: u64 = 999_999_999_999;

// A book has at most so many members, and at most so many offers and cancellations count.
pub const MAX_MEMBERS: usize = 99_999_999;

// Day 0 is 1 January 2000; this one, 31 December 2049, is the last working day.
pub const LAST_DAY: u32 = 18_262;

// The years that a cancellation may name.
pub const FIRST_YEAR: u16 = 2000;

pub const LAST_YEAR: u16 = 2049;

// The program takes an order file of at most so many bytes.
pub const MAX_FILE_BYTES: usize = 65_536;
