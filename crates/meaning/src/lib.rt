// What a roll means stands in specs/, the theorems in proofs/; this crate has no functions. For the code of the crates above it has the greatest
// numbers of specs/, once each.
#![tactic(auto)]

// The stations of a group, as a number and as a length.
pub const GREATEST_SIZE: u32 = 16;

pub const MOST_STATIONS: usize = GREATEST_SIZE as usize;

// The rows of any table.
pub const MOST_ROWS: u32 = 512;

// The objects of a table, as a length and as a number.
pub const MOST_OBJECTS: usize = 32;

pub const GREATEST_COUNT: u32 = MOST_OBJECTS as u32;

// The kinds are numbered from 1 to this.
pub const GREATEST_KIND: u32 = 9;

// The amount of an increase or decrease.
pub const GREATEST_AMOUNT: u32 = 1000000;

// The number of an operation: the greatest entry of a vector.
pub const GREATEST_NUMBER: u32 = u32::MAX;
