// The ranges of an opening's numbers, and the space that they ask for.
#![tactic(auto)]

ghost use Rattle.std.specs.Prelude.{◌≡◌, ◌≤◌};
ghost use Rattle.meaning.specs.Tests.{between, every};
ghost use Rattle.meaning.specs.Table.{greatest_kind, in_range, most_objects, greatest_size, greatest_capacity};
ghost use Rattle.words_layout.specs.Layout.{rows_at, space_for, most_words, most_before_rows};
ghost use Rattle.table_ranges.specs.Headers.{header_of};

use words_layout::{CLOCK_AT, KEY};
use words_tags::{RowCount, Station};

// Whether a number is from the least to the greatest.
pub fn in_range(number: u32, least: u32, greatest: u32) -> bool
    ensures { result ≡ between least greatest number }
{
    least <= number && number <= greatest
}

// The greatest capacity of a group of this size.
fn greatest_capacity(size: u32) -> u32
    ensures { result ≡ greatest_capacity size }
{
    meaning::MOST_ROWS
}

// Whether a group of this size may have this capacity.
pub fn capacity_ok(size: u32, capacity: RowCount) -> bool
    ensures { result ≡ between 1 (greatest_capacity size) capacity.0 }
{
    in_range(capacity.0, 1, greatest_capacity(size))
}

// Whether a table may have so many objects; a length need not fit a word.
fn is_object_count(objects: usize) -> bool
    ensures { result ≡ between 1 most_objects objects }
{
    1 <= objects && objects <= meaning::MOST_OBJECTS
}

// Whether every kind is one of the nine.
fn kinds_known(kinds: &[u8]) -> bool
    ensures { result ≡ every (between 1 greatest_kind) kinds.now }
{
    words_tags::every(
        kinds,
        |kind| in_range(u32::from(*kind), 1, meaning::GREATEST_KIND),
    )
}

// Whether the numbers of an opening are in range, whatever they are.
pub fn header_ok(size: u32, own: Station, capacity: RowCount, kinds: &[u8]) -> bool
    ensures { result ≡ in_range (header_of size own.0 capacity.0 kinds.now) }
{
    in_range(size, 1, meaning::GREATEST_SIZE)
        && own.0 < size
        && is_object_count(kinds.len())
        && kinds_known(kinds)
        && capacity_ok(size, capacity)
}

// Where the rows of a group of this size start.
pub fn rows_at(size: usize) -> usize
    requires { size ≤ greatest_size }
    ensures { (result ≡ rows_at size) × (result ≤ most_before_rows) }
{
    CLOCK_AT + size + size * size
}

// How many words a table needs.
pub fn space_for(size: usize, capacity: RowCount) -> usize
    requires { (size ≤ greatest_size) × (capacity.0 ≤ greatest_capacity size) }
    ensures { (result ≡ space_for size capacity.0) × (result ≤ most_words) }
{
    rows_at(size) + words_tags::wide(capacity.0) * (KEY + size)
}
