// A row put at its ordered place among rows in lent words.
#![tactic(auto)]

ghost use Rattle.std.specs.Prelude.{◌≡◌, ◌++◌, ◌+◌, ◌*◌, ◌≤◌, length, drop};
ghost use Rattle.meaning.specs.Rows.{lower_key};
ghost use Rattle.words_layout.specs.Words.{flat, pieces};
ghost use Rattle.words_layout.specs.Layout.{row_width};
ghost use Rattle.table_insert.specs.Placing.{inserted, key_words, passed};

use words_layout::KEY;
use words_tags::RowCount;

// Whether one key is lower than another, by the first word in which they differ.
pub fn lower(key: &[u32], other: &[u32]) -> bool
    requires { length key.now ≡ length other.now }
    ensures { result ≡ lower_key key.now other.now }
{
    for i in 0..key.len() {
        if key[i] != other[i] {
            return key[i] < other[i];
        }
    }
    false
}

// The place of the first row that the key is lower than.
fn find_place(rows: &[u32], width: usize, count: RowCount, key: &[u32]) -> usize
    requires { (count.0 * width ≤ length rows.now) × (key_words ≤ width) × (length key.now ≡ key_words) }
    ensures { result ≡ length (flat (passed key.now (pieces width count.0 rows.now))) }
{
    let count = words_tags::wide(count.0);
    let place = rows[..count * width]
        .chunks_exact(width)
        .position(|row| lower(key, &row[..KEY]));
    place.unwrap_or(count) * width
}

// Puts a row, its key and its vector, at its ordered place; the rows behind it move up.
pub fn insert_row(rows: &mut [u32], width: usize, count: RowCount, key: &[u32], v: &[u32])
    requires { (count.0 * width + width ≤ length rows.old) × (width ≡ row_width (length v.now)) × (length key.now ≡ key_words) }
    ensures { rows.new ≡ flat (inserted key.now v.now (pieces width count.0 rows.old)) ++ drop (count.0 * width + width) rows.old }
{
    let end = words_tags::wide(count.0) * width;
    let at = find_place(rows, width, count, key);
    words_moves::move_up(rows, at, end, width);
    words_moves::put(rows, at, key);
    words_moves::put(rows, at + KEY, v);
}
