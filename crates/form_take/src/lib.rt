// A line of a saved form taken into a space under load, where it is the one that comes next. A wrong line leaves zeros; the closing line asks whether
// the words are a table.
#![tactic(auto)]

ghost use Rattle.std.specs.Prelude.{◌≡◌, ◌+◌, ◌≤◌, ◌<◌, length};
ghost use Rattle.words_layout.specs.Layout.{objects_in, size_in};
ghost use Rattle.refusal_number.specs.Numbers.{numbered};
ghost use Rattle.form_row.specs.LoadHead.{LoadHead};
ghost use Rattle.form_take.specs.Taking.{clock_taken, closed, finished, last_taken, most_progress, progress_in, row_or_closing, row_taken, spoilt, took, total_taken};
ghost use Rattle.meaning.specs.Table.{greatest_size};

use line_read::Row;
use refusal_number::Refusal;
use words_layout::{
    CLOCK_AT, COUNT_AT, KEY, KINDS_AT, LOADING_AT, OWN_AT, SIZE_AT, TOTAL_WORDS, TOTALS_AT,
};
use words_tags::Station;

// What a line of a form gets where it is not refused: nothing but that it is taken, or that it closes the form and the table is there.
#[derive(Clone, Copy, Debug, PartialEq, Eq)]
pub enum Loaded {
    Taken,
    Table,
}

// Zeros for the whole space: nothing is left of a load that went wrong.
pub fn spoil(space: &mut [u32]) -> Result<Loaded, Refusal>
    ensures { (numbered result, space.new) ≡ spoilt space.old }
{
    space.fill(0);
    Err(Refusal::Wrong)
}

// New words at a place, and one more line taken.
fn take_words(space: &mut [u32], at: usize, new: &[u32]) -> Result<Loaded, Refusal>
    requires { (7 ≤ length space.old) × (progress_in space.old ≤ most_progress) × (at + length new.now ≤ length space.old) }
    ensures { (numbered result, space.new) ≡ took space.old at new.now }
{
    let progress = space[LOADING_AT];
    words_moves::put(space, at, new);
    space[LOADING_AT] = progress + 1;
    Ok(Loaded::Taken)
}

// D.
pub fn take_clock(space: &mut [u32], bytes: &[u8]) -> Result<Loaded, Refusal>
    requires { LoadHead space.old × (progress_in space.old ≤ most_progress) }
    ensures { (numbered result, space.new) ≡ clock_taken bytes.now space.old }
{
    let size = words_tags::wide(space[SIZE_AT]);
    match line_read::read_clock(bytes, size) {
        Some(f) => take_words(space, CLOCK_AT, &f.vector[0..size]),
        None => spoil(space),
    }
}

// The last vector of a station, which must be the next one's and keep its rule.
pub fn take_last(space: &mut [u32], bytes: &[u8], station: Station) -> Result<Loaded, Refusal>
    requires { LoadHead space.old × (progress_in space.old ≤ most_progress) × (station.0 < size_in space.old) }
    ensures { (numbered result, space.new) ≡ last_taken station.0 bytes.now space.old }
{
    let size = words_tags::wide(space[SIZE_AT]);
    let Some(f) = line_read::read_last(bytes, size) else {
        return spoil(space);
    };
    if f.station != station.0 {
        return spoil(space);
    }
    let end = CLOCK_AT + size;
    let own = Station(space[OWN_AT]);
    if table_rules_clock::last_ok(&f.vector[0..size], &space[CLOCK_AT..end], station, own) {
        let at = end + words_tags::wide(f.station) * size;
        take_words(space, at, &f.vector[0..size])
    } else {
        spoil(space)
    }
}

// The total of a counter, which must be the next one's and keep its rule.
pub fn take_total(space: &mut [u32], bytes: &[u8], object: usize) -> Result<Loaded, Refusal>
    requires { LoadHead space.old × (progress_in space.old ≤ most_progress) × (object < objects_in space.old) }
    ensures { (numbered result, space.new) ≡ total_taken object bytes.now space.old }
{
    let Some(f) = line_read::read_total(bytes) else {
        return spoil(space);
    };
    if words_tags::wide(f.object) != object {
        return spoil(space);
    }
    let total = [f.high, f.low];
    let end = CLOCK_AT + words_tags::wide(space[SIZE_AT]);
    let bound = table_rules_clock::total_bound(&space[CLOCK_AT..end]);
    if table_rules_clock::total_ok(
        space[KINDS_AT + object],
        table_rules_clock::code_of(&total),
        bound,
    ) {
        take_words(space, TOTALS_AT + object * TOTAL_WORDS, &total)
    } else {
        spoil(space)
    }
}

// A row, by its own rules and in order behind the last.
fn take_row(space: &mut [u32], f: Row) -> Result<Loaded, Refusal>
    requires { LoadHead space.old × (length f.vector ≡ greatest_size) }
    ensures { (numbered result, space.new) ≡ row_taken f space.old }
{
    if line_read::SETTLED_BYTE < f.settled {
        return spoil(space);
    }
    let size = words_tags::wide(space[SIZE_AT]);
    let row = form_row::row_words(f, size);
    let width = KEY + size;
    if form_row::may_join(space, &row[0..width]) {
        form_row::join(space, &row[0..width]);
        Ok(Loaded::Taken)
    } else {
        spoil(space)
    }
}

// No load is under way any more: the words are a table by the rules, or nothing.
fn finish(space: &mut [u32]) -> Result<Loaded, Refusal>
    requires { LoadHead space.old }
    ensures { (numbered result, space.new) ≡ finished space.old }
{
    space[LOADING_AT] = table_rules::IDLE;
    if table_rules::is_table(space) {
        Ok(Loaded::Table)
    } else {
        spoil(space)
    }
}

// The closing line, whose count must be that of the rows.
fn close(space: &mut [u32], bytes: &[u8]) -> Result<Loaded, Refusal>
    requires { LoadHead space.old }
    ensures { (numbered result, space.new) ≡ closed bytes.now space.old }
{
    match line_read::read_closing(bytes) {
        Some(f) if f.rows == space[COUNT_AT] => finish(space),
        _ => spoil(space),
    }
}

// Once all totals are there: a row, or the closing line.
pub fn take_row_or_close(space: &mut [u32], bytes: &[u8]) -> Result<Loaded, Refusal>
    requires { LoadHead space.old }
    ensures { (numbered result, space.new) ≡ row_or_closing bytes.now space.old }
{
    match line_read::read_row(bytes, words_tags::wide(space[SIZE_AT])) {
        Some(f) => take_row(space, f),
        None => close(space, bytes),
    }
}
