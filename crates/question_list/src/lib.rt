// The values of an object in a table that was checked: whether one is in, how many are in, and all of them, one after the other.
#![tactic(auto)]

ghost use Rattle.std.specs.Prelude.{◌≡◌, ◌++◌, ◌<◌, ◌≤◌, length, drop};
ghost use Rattle.meaning.specs.Questions.{by_rows};
ghost use Rattle.words_layout.specs.Layout.{rows_at, row_width, size_in, table_of};
ghost use Rattle.table_insert.specs.Placing.{key_words};
ghost use Rattle.table_rules.specs.Checked.{Checked};
ghost use Rattle.question_list.specs.Walking.{next_value, values_behind};

use words_layout::{COUNT_AT, KEY, LOW_AT, SIZE_AT};
use words_tags::{RowCount, Value};

// The next value of a walk, and how many rows are passed with it.
#[derive(Clone, Copy, Debug, PartialEq, Eq)]
pub struct Found {
    pub value: Value,
    pub passed: RowCount,
}

// Where the rows of a table start.
fn rows_start(s: &[u32]) -> usize
    requires { Checked s.now }
    ensures { (result ≡ rows_at (size_in s.now)) × (result ≤ length s.now) }
{
    table_ranges::rows_at(words_tags::wide(s[SIZE_AT]))
}

// How many words a row of a table has.
fn row_width(s: &[u32]) -> usize
    requires { Checked s.now }
    ensures { (result ≡ row_width (size_in s.now)) × (key_words ≤ result) }
{
    KEY + words_tags::wide(s[SIZE_AT])
}

// Whether a value of the object is in; a flag is on where 0 is.
pub fn is_in(s: &[u32], object: u32, value: Value) -> bool
    requires { Checked s.now }
    ensures { result ≡ (by_rows (table_of s.now)).in_at object value.0 }
{
    let start = rows_start(s);
    let width = row_width(s);
    question_scan::value_shown(&s[start..], width, RowCount(s[COUNT_AT]), object, value)
}

// How many different values of the object are in: the headcount, which is the length of its list.
pub fn count_in(s: &[u32], object: u32) -> RowCount
    requires { Checked s.now }
    ensures { result.0 ≡ (by_rows (table_of s.now)).count_at object }
{
    let start = rows_start(s);
    let width = row_width(s);
    let rows = RowCount(s[COUNT_AT]);
    question_scan::count_shown(&s[start..], width, rows, object)
}

// The next value of the object behind so many rows, where one is left: a walk over the list without a space for it.
pub fn next_value(s: &[u32], object: u32, passed: RowCount) -> Found
    requires { Checked s.now × (0 < length (values_behind passed.0 object (table_of s.now))) }
    ensures { result ≡ next_value passed.0 object (table_of s.now) }
{
    let width = row_width(s);
    let from = rows_start(s) + words_tags::wide(passed.0) * width;
    let before = question_scan::next_shown(
        s,
        width,
        from,
        RowCount(s[COUNT_AT] - passed.0),
        object,
    ).0;
    let at = from + words_tags::wide(before) * width;
    Found {
        value: Value(s[at + LOW_AT]),
        passed: RowCount(passed.0 + before + 1),
    }
}

// Writes the list of the object's values, which were counted before: so many at the front of a space that has room for them.
pub fn list_into(s: &[u32], object: u32, count: RowCount, out: &mut [u32])
    requires { Checked s.now × (count.0 ≡ (by_rows (table_of s.now)).count_at object) × (count.0 ≤ length out.old) }
    ensures { out.new ≡ (by_rows (table_of s.now)).list_at object ++ drop (length ((by_rows (table_of s.now)).list_at object)) out.old }
{
    let mut passed = 0;
    for to in 0..words_tags::wide(count.0) {
        let found = next_value(s, object, RowCount(passed));
        out[to] = found.value.0;
        passed = found.passed.0;
    }
}
