// An accepted operation changes a table in lent words: rows go, its own row is put, the clock is advanced, a counter's total is changed.
#![tactic(auto)]

ghost use Rattle.std.specs.Prelude.{◌≡◌, true, [], ◌*◌, ◌≤◌, ◌<◌, length};
ghost use Rattle.meaning.specs.Arrival.{gets_row, rows_after};
ghost use Rattle.meaning.specs.Rows.{insert_row, settled_row, unsettled_row};
ghost use Rattle.meaning.specs.Table.{kind_in};
ghost use Rattle.meaning.specs.Calls.{after_arrival, with_rows};
ghost use Rattle.words_layout.specs.Layout.{capacity_in, clock_at, Laid, objects_in, rewritten, row_width, table_of, with_totals};
ghost use Rattle.table_drop.specs.Arriving.{operation_of, puts, row_for};
ghost use Rattle.table_change.specs.Changes.{Opened};
ghost use Rattle.arrival.specs.Arrives.{Arrives, arrival_from, has_room, has_value, totals_with};

use table_drop::Arrival;
use table_kinds::{ADDS, CLEARS, Kind, REMOVES};
use words_layout::{CAPACITY_AT, KEY, KINDS_AT, NO_HIGH, OBJECTS_AT, SETTLED, UNSETTLED};
use words_tags::{RowCount, Station, Value};

// What stands for the sender and the number of a settled row, which has no tag.
const NO_TAG: u32 = 0;

// What arrives of an operation on an object of this table: its kind is looked up.
pub fn arrival_of(s: &[u32], object: u32, code: u32, value: Value, sender: Station) -> Arrival
    requires { Laid s.now × (clock_at ≤ length s.now) }
    ensures { result ≡ arrival_from (kind_in (table_of s.now).header object) object code value sender }
{
    let end = KINDS_AT + words_tags::wide(s[OBJECTS_AT]);
    Arrival {
        kind: table_kinds::kind_of(&s[KINDS_AT..end], object),
        object,
        code,
        value,
        sender,
    }
}

// Whether any row is of the arrival's object and value.
fn has_value(rows: &[u32], width: usize, count: RowCount, a: Arrival, v: &[u32]) -> bool
    requires { (count.0 * width ≤ length rows.now) × (width ≡ row_width (length v.now)) }
    ensures { result ≡ has_value a v.now width count.0 rows.now }
{
    rows[..words_tags::wide(count.0) * width]
        .chunks_exact(width)
        .any(|row| table_drop::same_value(row, a, v))
}

// Whether an arrival of kinds 5 to 9 gets a row: a clear gets none, and a remove none where only adds are stored.
#[tactic(auto, unfolding(meaning::specs::Arrival::gets_row))]
fn gets_row(a: Arrival) -> bool
    ensures { result ≡ gets_row a.kind (operation_of a []) }
{
    let adds_alone = matches!(
        Kind::try_from(a.kind),
        Ok(Kind::EnableWinsFlag | Kind::AddWinsSet)
    );
    a.code != CLEARS && !(a.code == REMOVES && adds_alone)
}

// Whether a row is put for the arrival, in any kind: in kinds 3 and 4 none for the add of a value that has one.
fn puts_row(s: &[u32], size: usize, count: RowCount, a: Arrival, v: &[u32]) -> bool
    requires { Opened s.now size count.0 × (length v.now ≡ size) }
    ensures { result ≡ puts a.kind (operation_of a v.now) (table_of s.now).rows }
{
    if table_kinds::is_counter(a.kind) {
        false
    } else if table_drop::is_kept(a.kind) {
        let base = table_ranges::rows_at(size);
        a.code != ADDS || !has_value(&s[base..], KEY + size, count, a, v)
    } else {
        gets_row(a)
    }
}

// Whether there is room for the rows that the arrival leaves, its own among them: nothing is changed yet.
pub fn has_room(s: &[u32], size: usize, count: RowCount, a: Arrival, v: &[u32]) -> bool
    requires { Opened s.now size count.0 × (length v.now ≡ size) }
    ensures { result ≡ has_room a v.now (table_of s.now) }
{
    let base = table_ranges::rows_at(size);
    let left = table_drop::count_left(&s[base..], KEY + size, count, a, v);
    if puts_row(s, size, count, a, v) {
        left.0 < s[CAPACITY_AT]
    } else {
        left.0 <= s[CAPACITY_AT]
    }
}

// Puts the arrival's row with its tag.
fn put_unsettled(s: &mut [u32], size: usize, count: RowCount, a: Arrival, v: &[u32])
    requires { Opened s.old size count.0 × (count.0 < capacity_in s.old) × (length v.now ≡ size) }
    ensures { s.new ≡ rewritten s.old (with_rows (table_of s.old) (insert_row (unsettled_row (operation_of a v.now)) (table_of s.old).rows)) }
{
    let sender = a.sender;
    let number = words_tags::number_at(v, sender);
    let key = [
        a.object, NO_HIGH, a.value.0, a.code, UNSETTLED, sender.0, number.0,
    ];
    table_change::put_row(s, size, count, &key, v);
}

// Puts the arrival's row without a tag, as kinds 3 and 4 keep it.
fn put_settled(s: &mut [u32], size: usize, count: RowCount, a: Arrival)
    requires { Opened s.old size count.0 × (count.0 < capacity_in s.old) }
    ensures { s.new ≡ rewritten s.old (with_rows (table_of s.old) (insert_row (settled_row (operation_of a [])) (table_of s.old).rows)) }
{
    let key = [
        a.object, NO_HIGH, a.value.0, a.code, SETTLED, NO_TAG, NO_TAG,
    ];
    let none = [0u32; meaning::MOST_STATIONS];
    table_change::put_row(s, size, count, &key, &none[0..size]);
}

// Puts the row that the arrival's kind keeps of it.
fn put_arrival(s: &mut [u32], size: usize, count: RowCount, a: Arrival, v: &[u32])
    requires { (count.0 < capacity_in s.old) × Opened s.old size count.0 × (length v.now ≡ size) }
    ensures { s.new ≡ rewritten s.old (with_rows (table_of s.old) (insert_row (row_for a.kind (operation_of a v.now)) (table_of s.old).rows)) }
{
    if table_drop::is_kept(a.kind) {
        put_settled(s, size, count, a);
    } else {
        put_unsettled(s, size, count, a, v);
    }
}

// Changes the rows: those that go are dropped, and the arrival's own is put if it gets one.
fn arrive_rows(s: &mut [u32], size: usize, count: RowCount, a: Arrival, v: &[u32]) -> RowCount
    requires { Opened s.old size count.0 × (length v.now ≡ size) × (has_room a v.now (table_of s.old) ≡ true) }
    ensures { (result.0 ≡ length (rows_after a.kind (operation_of a v.now) (table_of s.old).rows)) × (s.new ≡ rewritten s.old (with_rows (table_of s.old) (rows_after a.kind (operation_of a v.now) (table_of s.old).rows))) }
{
    let gets = puts_row(s, size, count, a, v);
    let left = table_change::drop_going(s, size, count, a, v);
    if gets {
        put_arrival(s, size, left, a, v);
        RowCount(left.0 + 1)
    } else {
        left
    }
}

// Changes the total of a counter; other kinds have none to change.
fn arrive_total(s: &mut [u32], size: usize, count: RowCount, a: Arrival)
    requires { Opened s.old size count.0 × (a.object < objects_in s.old) }
    ensures { s.new ≡ rewritten s.old (with_totals (table_of s.old) (totals_with a (table_of s.old))) }
{
    if table_kinds::is_counter(a.kind) {
        table_change::change_total(
            s,
            size,
            count,
            words_tags::wide(a.object),
            a.value.0,
            a.code == ADDS,
        );
    }
}

// An accepted operation arrives: it changes rows and total, and advances its sender's entry of the clock. The total comes last, for only then do
// the changes before it ask nothing of its range.
pub fn arrive(s: &mut [u32], size: usize, count: RowCount, a: Arrival, v: &[u32])
    requires { Arrives s.old size count.0 a v.now }
    ensures { s.new ≡ rewritten s.old (after_arrival (table_of s.old) (operation_of a v.now) (table_of s.old).last) }
{
    let sender = a.sender;
    let after = arrive_rows(s, size, count, a, v);
    table_change::advance_clock(s, size, after, sender);
    arrive_total(s, size, after, a);
}
