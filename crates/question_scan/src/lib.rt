// The scans that answer questions: which rows show a value that is in.
#![tactic(auto)]

ghost use Rattle.std.specs.Prelude.{◌≡◌, not, map, ◌+◌, ◌-◌, ◌*◌, ◌<◌, ◌≤◌, length, drop, take};
ghost use Rattle.words_layout.specs.Words.{pieces};
ghost use Rattle.words_layout.specs.Layout.{row_of};
ghost use Rattle.table_insert.specs.Placing.{key_words};
ghost use Rattle.question_scan.specs.Showing.{before_shown, count_shown, same_key, shows, shows_value, value_shown};

use table_kinds::ADDS;
use words_layout::{CODE_AT, HIGH_AT, LOW_AT, NO_HIGH};
use words_tags::{RowCount, Value};

// Whether the rows at two places are of different values, by their object and value words.
#[tactic(auto, unfolding(crate::specs::Showing::same_key))]
fn differ(rows: &[u32], at: usize, next: usize) -> bool
    requires { (at + key_words ≤ length rows.now) × (next + key_words ≤ length rows.now) }
    ensures { result ≡ not (same_key rows.now at next) }
{
    rows[next] != rows[at]
        || rows[next + HIGH_AT] != rows[at + HIGH_AT]
        || rows[next + LOW_AT] != rows[at + LOW_AT]
}

// Whether the row at a place shows a value of the object: an add row, and the row behind it is of another value.
fn shows_at(rows: &[u32], width: usize, at: usize, more: RowCount, object: u32) -> bool
    requires { (at + more.0 * width ≤ length rows.now) × (0 < more.0) × (key_words ≤ width) × (at + key_words ≤ length rows.now) }
    ensures { result ≡ shows object (row_of (take width (drop at rows.now))) (map row_of (pieces width (more.0 - 1) (drop (at + width) rows.now))) }
{
    rows[at] == object
        && rows[at + CODE_AT] == ADDS
        && (more.0 == 1 || differ(rows, at, at + width))
}

// Whether the row at a place shows this value of the object.
fn shows_value_at(
    rows: &[u32],
    width: usize,
    at: usize,
    more: RowCount,
    object: u32,
    value: Value,
) -> bool
    requires { (at + more.0 * width ≤ length rows.now) × (0 < more.0) × (key_words ≤ width) × (at + key_words ≤ length rows.now) }
    ensures { result ≡ shows_value object value.0 (row_of (take width (drop at rows.now))) (map row_of (pieces width (more.0 - 1) (drop (at + width) rows.now))) }
{
    rows[at + HIGH_AT] == NO_HIGH
        && rows[at + LOW_AT] == value.0
        && shows_at(rows, width, at, more, object)
}

// Whether a value of the object is shown.
pub fn value_shown(rows: &[u32], width: usize, count: RowCount, object: u32, value: Value) -> bool
    requires { (count.0 * width ≤ length rows.now) × (key_words ≤ width) }
    ensures { result ≡ value_shown object value.0 (map row_of (pieces width count.0 rows.now)) }
{
    for i in 0..count.0 {
        let at = words_tags::wide(i) * width;
        if shows_value_at(rows, width, at, RowCount(count.0 - i), object, value) {
            return true;
        }
    }
    false
}

// How many rows stand, from a place on, before the next that shows a value of the object: all that are left if none does.
pub fn next_shown(rows: &[u32], width: usize, at: usize, more: RowCount, object: u32) -> RowCount
    requires { (at + more.0 * width ≤ length rows.now) × (key_words ≤ width) }
    ensures { result.0 ≡ before_shown object (map row_of (pieces width more.0 (drop at rows.now))) }
{
    for i in 0..more.0 {
        let place = at + words_tags::wide(i) * width;
        if shows_at(rows, width, place, RowCount(more.0 - i), object) {
            return RowCount(i);
        }
    }
    more
}

// How many values of the object are shown: the headcount, which never counts log rows.
pub fn count_shown(rows: &[u32], width: usize, count: RowCount, object: u32) -> RowCount
    requires { (count.0 * width ≤ length rows.now) × (key_words ≤ width) }
    ensures { result.0 ≡ count_shown object (map row_of (pieces width count.0 rows.now)) }
{
    let mut found = 0;
    for i in 0..count.0 {
        let at = words_tags::wide(i) * width;
        if shows_at(rows, width, at, RowCount(count.0 - i), object) {
            found += 1;
        }
    }
    RowCount(found)
}
