// The table rules of rows in lent words: each row by itself, and with the one before it.
#![tactic(auto)]

ghost use Rattle.std.specs.Prelude.{◌≡◌, ◌*◌, ◌≤◌, length};
ghost use Rattle.meaning.specs.Tests.{every};
ghost use Rattle.meaning.specs.Table.{settled_only, storable};
ghost use Rattle.words_layout.specs.Words.{all_zero, pieces};
ghost use Rattle.words_layout.specs.Layout.{row_of, row_width};
ghost use Rattle.table_kinds.specs.Kinds.{kind_number};
ghost use Rattle.table_insert.specs.Placing.{key_words};
ghost use Rattle.table_rules_rows.specs.RowTests.{chained, content_kept, follows, number_kept, repeats, row_kept, rows_kept, tag_kept, unsettled_kept};

use table_kinds::{ADDS, Kind, REMOVES};
use words_layout::{
    CODE_AT, HIGH_AT, KEY, LOW_AT, NO_HIGH, NUMBER_AT, OBJECT_AT, SETTLED, TAG_AT, UNSETTLED,
    UNSETTLED_AT, VECTOR_AT,
};
use words_tags::{Number, RowCount, Station};

// Whether all words are 0.
pub fn all_zero(words: &[u32]) -> bool
    ensures { result ≡ all_zero words.now }
{
    words_tags::every(words, |word| *word == 0)
}

// Whether a row of this kind may have this code: adds in all that keep rows, removes where they bar or stand.
fn is_storable(kind: Kind, row: &[u32]) -> bool
    requires { key_words ≤ length row.now }
    ensures { result ≡ storable (kind_number kind) (row_of row.now).operation }
{
    if row[CODE_AT] == ADDS {
        return !kind.is_counter();
    }
    row[CODE_AT] == REMOVES
        && matches!(
            kind,
            Kind::TwoPhaseSet | Kind::DisableWinsFlag | Kind::RemoveWinsSet
        )
}

// Whether a row of this kind may have this code and this value.
fn content_ok(kind: Kind, row: &[u32]) -> bool
    requires { key_words ≤ length row.now }
    ensures { result ≡ content_kept (kind_number kind) (row_of row.now).operation }
{
    is_storable(kind, row) && row[HIGH_AT] == NO_HIGH && (!kind.is_flag() || row[LOW_AT] == 0)
}

// Whether the number is the vector's entry at the sender.
fn number_ok(number: Number, sender: Station, v: &[u32]) -> bool
    ensures { result ≡ number_kept number.0 sender.0 v.now }
{
    v.get(words_tags::wide(sender.0))
        .is_some_and(|entry| 1 <= number.0 && number.0 == *entry)
}

// Whether an unsettled row has a tag that the clock covers.
fn unsettled_ok(row: &[u32], clock: &[u32]) -> bool
    requires { length row.now ≡ row_width (length clock.now) }
    ensures { result ≡ unsettled_kept clock.now row.now }
{
    let v = &row[VECTOR_AT..];
    row[UNSETTLED_AT] == UNSETTLED
        && words_tags::at_most(v, clock)
        && number_ok(Number(row[NUMBER_AT]), Station(row[TAG_AT]), v)
}

// Whether objects of this kind keep settled rows only.
#[tactic(auto, unfolding(meaning::specs::Table::settled_only))]
fn is_settled_only(kind: Kind) -> bool
    ensures { result ≡ settled_only (kind_number kind) }
{
    matches!(kind, Kind::GrowSet | Kind::TwoPhaseSet)
}

// Whether a row of this kind has no tag where it is settled, and else one that the clock covers.
fn tag_ok(kind: Kind, row: &[u32], clock: &[u32]) -> bool
    requires { length row.now ≡ row_width (length clock.now) }
    ensures { result ≡ tag_kept (kind_number kind) clock.now row.now }
{
    if row[UNSETTLED_AT] == SETTLED {
        all_zero(&row[TAG_AT..])
    } else {
        !is_settled_only(kind) && unsettled_ok(row, clock)
    }
}

// Whether a row keeps the rules that ask nothing of other rows.
pub fn row_ok(row: &[u32], kinds: &[u32], clock: &[u32]) -> bool
    requires { length row.now ≡ row_width (length clock.now) }
    ensures { result ≡ row_kept kinds.now clock.now row.now }
{
    let Ok(kind) = Kind::try_from(table_kinds::kind_of(kinds, row[OBJECT_AT])) else {
        return false;
    };
    content_ok(kind, row) && tag_ok(kind, row, clock)
}

// Whether every row keeps the rules that ask nothing of other rows, with a fault noted as in `every`.
fn each_ok(rows: &[u32], width: usize, count: RowCount, kinds: &[u32], clock: &[u32]) -> bool
    requires { (count.0 * width ≤ length rows.now) × (width ≡ row_width (length clock.now)) }
    ensures { result ≡ every (row_kept kinds.now clock.now) (pieces width count.0 rows.now) }
{
    let mut good = true;
    for k in 0..count.0 {
        let at = words_tags::wide(k) * width;
        good &= row_ok(&rows[at..at + width], kinds, clock);
    }
    good
}

// Whether two rows are of the same object and value.
fn has_same_value(before: &[u32], row: &[u32]) -> bool
    requires { (length before.now ≡ key_words) × (length row.now ≡ key_words) }
    ensures { result ≡ repeats before.now row.now }
{
    words_tags::same(&before[OBJECT_AT..CODE_AT], &row[OBJECT_AT..CODE_AT])
}

// Whether a row may come next after another, by the first seven words of each.
pub fn may_follow(before: &[u32], row: &[u32], kinds: &[u32]) -> bool
    requires { (length before.now ≡ key_words) × (length row.now ≡ key_words) }
    ensures { result ≡ follows kinds.now before.now row.now }
{
    let kind = table_kinds::kind_of(kinds, row[OBJECT_AT]);
    let repeats = Kind::try_from(kind) == Ok(Kind::TwoPhaseSet) && has_same_value(before, row);
    !repeats && table_insert::lower(before, row)
}

// Whether each row may come next after the one before it.
fn in_order(rows: &[u32], width: usize, count: RowCount, kinds: &[u32]) -> bool
    requires { (count.0 * width ≤ length rows.now) × (key_words ≤ width) }
    ensures { result ≡ chained (follows kinds.now) (pieces width count.0 rows.now) }
{
    let mut good = true;
    for k in 1..count.0 {
        let next = words_tags::wide(k) * width;
        let at = next - width;
        good &= may_follow(&rows[at..at + KEY], &rows[next..next + KEY], kinds);
    }
    good
}

// Whether the rows keep all the rules of rows.
pub fn rows_ok(rows: &[u32], width: usize, count: RowCount, kinds: &[u32], clock: &[u32]) -> bool
    requires { (count.0 * width ≤ length rows.now) × (width ≡ row_width (length clock.now)) }
    ensures { result ≡ rows_kept kinds.now clock.now (pieces width count.0 rows.now) }
{
    each_ok(rows, width, count, kinds, clock) && in_order(rows, width, count, kinds)
}
