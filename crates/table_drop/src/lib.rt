// Rows in lent words: which of them go when an operation arrives, and how many are left.
#![tactic(auto)]

ghost use Rattle.std.specs.Prelude.{◌≡◌, ◌++◌, ◌+◌, ◌*◌, ◌≤◌, length, drop};
ghost use Rattle.meaning.specs.Arrival.{same_value, taken_by};
ghost use Rattle.words_layout.specs.Words.{flat, padded};
ghost use Rattle.words_layout.specs.Layout.{row_of, row_width};
ghost use Rattle.table_drop.specs.Arriving.{concerns_value, goes, is_kept, operation_of, staying};

use table_kinds::{ADDS, CLEARS, Kind};
use words_layout::{HIGH_AT, LOW_AT, NO_HIGH, OBJECT_AT, SETTLED, UNSETTLED_AT, VECTOR_AT};
use words_tags::{RowCount, Station, Value};

// What arrives, with the kind of its object; its vector is lent beside it.
#[derive(Clone, Copy, PartialEq, Eq, Debug)]
pub struct Arrival {
    pub kind: u32,
    pub object: u32,
    pub code: u32,
    pub value: Value,
    pub sender: Station,
}

// Whether a row is of the arrival's object and value.
pub fn same_value(row: &[u32], a: Arrival, v: &[u32]) -> bool
    requires { length row.now ≡ row_width (length v.now) }
    ensures { result ≡ same_value (operation_of a v.now) (row_of row.now) }
{
    row[OBJECT_AT] == a.object && row[HIGH_AT] == NO_HIGH && row[LOW_AT] == a.value.0
}

// Whether the arrival concerns a row's value, where the objects are the same.
fn concerns(a: Arrival, high: u32, low: u32) -> bool
    ensures { result ≡ concerns_value a high low }
{
    let in_register = matches!(Kind::try_from(a.kind), Ok(Kind::MultiValueRegister));
    let clears = a.code == CLEARS;
    in_register || clears || (high == NO_HIGH && a.value.0 == low)
}

// Whether the arrival takes the row, in kinds 5 to 9.
fn takes(row: &[u32], a: Arrival, v: &[u32]) -> bool
    requires { length row.now ≡ row_width (length v.now) }
    ensures { result ≡ taken_by a.kind (operation_of a v.now) (row_of row.now) }
{
    row[OBJECT_AT] == a.object
        && concerns(a, row[HIGH_AT], row[LOW_AT])
        && (row[UNSETTLED_AT] == SETTLED || words_tags::before(&row[VECTOR_AT..], v))
}

// Whether objects of this kind keep settled rows only.
pub fn is_kept(kind: u32) -> bool
    ensures { result ≡ is_kept kind }
{
    matches!(Kind::try_from(kind), Ok(Kind::GrowSet | Kind::TwoPhaseSet))
}

// Whether the row goes when the operation arrives, in any kind.
pub fn row_goes(row: &[u32], a: Arrival, v: &[u32]) -> bool
    requires { length row.now ≡ row_width (length v.now) }
    ensures { result ≡ goes a.kind (operation_of a v.now) (row_of row.now) }
{
    if table_kinds::is_counter(a.kind) {
        false
    } else if is_kept(a.kind) {
        a.code != ADDS && same_value(row, a, v)
    } else {
        takes(row, a, v)
    }
}

// How many rows are left when those that go are gone.
pub fn count_left(rows: &[u32], width: usize, count: RowCount, a: Arrival, v: &[u32]) -> RowCount
    requires { (count.0 * width ≤ length rows.now) × (width ≡ row_width (length v.now)) }
    ensures { result.0 ≡ length (staying a v.now width count.0 rows.now) }
{
    let left = rows[..words_tags::wide(count.0) * width]
        .chunks_exact(width)
        .filter(|row| !row_goes(row, a, v))
        .count();
    RowCount(left as u32)
}

// Drops the rows that go, where they stand: the others move to the front, with zeros after them.
pub fn drop_rows(rows: &mut [u32], width: usize, count: RowCount, a: Arrival, v: &[u32]) -> RowCount
    requires { (count.0 * width ≤ length rows.old) × (width ≡ row_width (length v.now)) }
    ensures { (result.0 ≡ length (staying a v.now width count.0 rows.old)) × (rows.new ≡ padded (count.0 * width) (flat (staying a v.now width count.0 rows.old)) ++ drop (count.0 * width) rows.old) }
{
    let end = words_tags::wide(count.0) * width;
    let mut to = 0;
    let mut left = 0;
    for row in 0..count.0 {
        let from = words_tags::wide(row) * width;
        if !row_goes(&rows[from..from + width], a, v) {
            words_moves::copy_down(rows, width, from, to);
            to += width;
            left += 1;
        }
    }
    words_moves::clear(rows, to, end);
    RowCount(left)
}
