// The layout of a table in words. This crate has no functions: its definitions are in specs/, its laws in proofs/; here are the places as numbers.
#![tactic(auto)]

// The first word of a table, "roll" in four bytes.
pub const TABLE_MARK: u32 = 1919904876;

// Where the numbers of a table's head stand.
pub const MARK_AT: usize = 0;

pub const SIZE_AT: usize = 1;

pub const OWN_AT: usize = 2;

pub const CAPACITY_AT: usize = 3;

pub const OBJECTS_AT: usize = 4;

pub const COUNT_AT: usize = 5;

pub const LOADING_AT: usize = 6;

// Where the parts behind the head stand.
pub const KINDS_AT: usize = 7;

pub const TOTALS_AT: usize = KINDS_AT + meaning::MOST_OBJECTS;

pub const CLOCK_AT: usize = TOTALS_AT + TOTAL_WORDS * meaning::MOST_OBJECTS;

// How many words a total has.
pub const TOTAL_WORDS: usize = 2;

// How many words a row has ahead of its vector: they decide its place among the rows.
pub const KEY: usize = 7;

// Where the words of a row stand; its tag is its sender, its number and its vector.
pub const OBJECT_AT: usize = 0;

pub const HIGH_AT: usize = 1;

pub const LOW_AT: usize = 2;

// The high word of every value today: a value is one word.
pub const NO_HIGH: u32 = 0;

pub const CODE_AT: usize = 3;

pub const UNSETTLED_AT: usize = 4;

// What the word there says.
pub const SETTLED: u32 = 0;

pub const UNSETTLED: u32 = 1;

pub const TAG_AT: usize = 5;

pub const NUMBER_AT: usize = 6;

pub const VECTOR_AT: usize = KEY;

// The words of a row of the largest group.
pub const WIDEST: usize = KEY + meaning::MOST_STATIONS;

// The words of the largest table.
pub const MOST_WORDS: usize = CLOCK_AT
    + meaning::MOST_STATIONS
    + meaning::MOST_STATIONS * meaning::MOST_STATIONS
    + meaning::MOST_ROWS as usize * WIDEST;
