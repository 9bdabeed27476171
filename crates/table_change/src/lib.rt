// A table in lent words, changed where it stands.
// Totals in two words, two's complement: an amount added or taken away, wrapping as 64 bits do.
#![tactic(auto)]

ghost use Rattle.std.specs.Prelude.{◌≡◌, ◌+◌, ◌-◌, ◌*◌, ◌%◌, ◌<◌, [], ◌∷◌, ◌++◌, length, pos, ◌+ℤ◌, slice_set};
ghost use Rattle.words_layout.specs.Words.{word_limit};
ghost use Rattle.words_layout.specs.Layout.{total_of_words, total_words, capacity_in, objects_in, rewritten, row_of, row_words, table_of, with_clock, with_last, with_totals};
ghost use Rattle.table_change.specs.TotalChange.{change};
ghost use Rattle.meaning.specs.Order.{raised};
ghost use Rattle.meaning.specs.Rows.{insert_row};
ghost use Rattle.meaning.specs.Calls.{with_rows};
ghost use Rattle.table_insert.specs.Placing.{key_words};
ghost use Rattle.table_change.specs.Changes.{EntryBelowLimit, Opened, rows_left, totals_changed};

use table_drop::Arrival;
use words_layout::{CLOCK_AT, COUNT_AT, KEY, TOTAL_WORDS, TOTALS_AT};
use words_tags::{RowCount, Station};

// One more than the greatest number of a word.
const WORD_LIMIT: u64 = u32::MAX as u64 + 1;

// The high word and the low word.
#[derive(Clone, Copy, PartialEq, Eq, Debug)]
pub struct Total(pub u32, pub u32);

// Its two words as one number.
impl From<Total> for u64 {
    ghost from_gives = { λ t code. code ≡ t.0 * word_limit + t.1 };

    fn from(t: Total) -> u64 {
        u64::from(t.0) * WORD_LIMIT + u64::from(t.1)
    }
}

// A number as two words.
impl From<u64> for Total {
    ghost from_gives = { λ code t. t.0 * word_limit + t.1 ≡ code };

    fn from(code: u64) -> Total {
        Total((code / WORD_LIMIT) as u32, (code % WORD_LIMIT) as u32)
    }
}

// The total after an increase or a decrease.
pub fn changed(t: Total, amount: u32, increase: bool) -> Total
    ensures { result.0 ∷ result.1 ∷ [] ≡ total_words (total_of_words (t.0 ∷ t.1 ∷ []) +ℤ change increase amount) }
{
    let code = u64::from(t);
    if increase {
        Total::from(code.wrapping_add(u64::from(amount)))
    } else {
        Total::from(code.wrapping_sub(u64::from(amount)))
    }
}

// Drops the rows that go when an operation arrives, and counts the others.
pub fn drop_going(s: &mut [u32], size: usize, count: RowCount, a: Arrival, v: &[u32]) -> RowCount
    requires { Opened s.old size count.0 × (length v.now ≡ size) }
    ensures { (result.0 ≡ length (rows_left a v.now (table_of s.old))) × (s.new ≡ rewritten s.old (with_rows (table_of s.old) (rows_left a v.now (table_of s.old)))) }
{
    let width = KEY + size;
    let base = table_ranges::rows_at(size);
    let left = table_drop::drop_rows(&mut s[base..], width, count, a, v);
    s[COUNT_AT] = left.0;
    left
}

// Puts a row, its key and its vector, at its ordered place.
pub fn put_row(s: &mut [u32], size: usize, count: RowCount, key: &[u32], v: &[u32])
    requires opened { Opened s.old size count.0 × (count.0 < capacity_in s.old) }
    requires key_len { (length key.now ≡ key_words) × (length v.now ≡ size) × (row_words size (row_of (key.now ++ v.now)) ≡ key.now ++ v.now) }
    ensures { s.new ≡ rewritten s.old (with_rows (table_of s.old) (insert_row (row_of (key.now ++ v.now)) (table_of s.old).rows)) }
{
    let width = KEY + size;
    let base = table_ranges::rows_at(size);
    table_insert::insert_row(&mut s[base..], width, count, key, v);
    s[COUNT_AT] = count.0 + 1;
}

// Advances the clock where it stands: "the last number accepted" of the sender is one higher.
pub fn advance_clock(s: &mut [u32], size: usize, count: RowCount, sender: Station)
    requires { Opened s.old size count.0 × (sender.0 < size) × EntryBelowLimit (table_of s.old) sender.0 }
    ensures { s.new ≡ rewritten s.old (with_clock (table_of s.old) (raised (table_of s.old).clock sender.0)) }
{
    let end = CLOCK_AT + size;
    words_tags::advance(&mut s[CLOCK_AT..end], sender);
}

// Writes the vector of the last frame accepted from a station.
pub fn write_last(s: &mut [u32], size: usize, count: RowCount, station: Station, v: &[u32])
    requires { Opened s.old size count.0 × (station.0 < size) × (length v.now ≡ size) }
    ensures { s.new ≡ rewritten s.old (with_last (table_of s.old) (slice_set (table_of s.old).last station.0 v.now)) }
{
    let at = CLOCK_AT + size + words_tags::wide(station.0) * size;
    words_moves::put(s, at, v);
}

// Changes the total of a counter where it stands.
pub fn change_total(
    s: &mut [u32],
    size: usize,
    count: RowCount,
    object: usize,
    amount: u32,
    increase: bool,
)
    requires { Opened s.old size count.0 × (object < objects_in s.old) }
    ensures { s.new ≡ rewritten s.old (with_totals (table_of s.old) (totals_changed object amount increase (table_of s.old))) }
{
    let at = TOTALS_AT + object * TOTAL_WORDS;
    let old = Total(s[at], s[at + 1]);
    let new = changed(old, amount, increase);
    s[at] = new.0;
    s[at + 1] = new.1;
}
