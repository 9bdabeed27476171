// A row of a saved form joins those that a space under load has taken: its words, whether it may, and the row behind the last.
#![tactic(auto)]

ghost use Rattle.std.specs.Prelude.{◌≡◌, ◌++◌, ◌≤◌, ◌<◌, drop, length};
ghost use Rattle.words_layout.specs.Layout.{capacity_in, count_in, row_width, size_in};
ghost use Rattle.form_row.specs.LoadHead.{LoadHead};
ghost use Rattle.form_row.specs.Joining.{joined, joins, row_said};
ghost use Rattle.meaning.specs.Table.{greatest_size};

use line_read::Row;
use words_layout::{CAPACITY_AT, CLOCK_AT, COUNT_AT, KEY, KINDS_AT, NO_HIGH, OBJECTS_AT, SIZE_AT};
use words_tags::{RowCount, Station};

// The words of the row that a line says; behind them stands what its array has beyond the group's entries.
pub fn row_words(f: Row, size: usize) -> [u32; words_layout::WIDEST]
    requires { (length f.vector ≡ greatest_size) × (f.settled ≤ 1) × (size ≤ greatest_size) }
    ensures { result ≡ row_said size f ++ drop size f.vector }
{
    let number = words_tags::number_at(&f.vector[0..size], Station(f.sender));
    let unsettled = line_read::SETTLED_BYTE - f.settled;
    let key = [
        f.object, NO_HIGH, f.value, f.code, unsettled, f.sender, number.0,
    ];
    let mut row = [0u32; words_layout::WIDEST];
    words_moves::put(&mut row, 0, &key);
    words_moves::put(&mut row, KEY, &f.vector);
    row
}

// Whether a row may join those that were taken.
pub fn may_join(space: &[u32], row: &[u32]) -> bool
    requires { LoadHead space.now × (length row.now ≡ row_width (size_in space.now)) }
    ensures { result ≡ joins space.now row.now }
{
    let count = space[COUNT_AT];
    if space[CAPACITY_AT] <= count {
        return false;
    }
    let size = words_tags::wide(space[SIZE_AT]);
    let kinds_end = KINDS_AT + words_tags::wide(space[OBJECTS_AT]);
    let clock_end = CLOCK_AT + size;
    if !table_rules_rows::row_ok(
        row,
        &space[KINDS_AT..kinds_end],
        &space[CLOCK_AT..clock_end],
    ) {
        return false;
    }
    if count == 0 {
        return true;
    }
    let last = table_ranges::space_for(size, RowCount(count - 1));
    let end = last + KEY;
    table_rules_rows::may_follow(&space[last..end], &row[0..KEY], &space[KINDS_AT..kinds_end])
}

// A row behind those that were taken, and one more of them.
pub fn join(space: &mut [u32], row: &[u32])
    requires { LoadHead space.old × (length row.now ≡ row_width (size_in space.old)) × (count_in space.old < capacity_in space.old) }
    ensures { space.new ≡ joined space.old row.now }
{
    let count = space[COUNT_AT];
    let at = table_ranges::space_for(words_tags::wide(space[SIZE_AT]), RowCount(count));
    words_moves::put(space, at, row);
    space[COUNT_AT] = count + 1;
}
