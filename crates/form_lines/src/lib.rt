// The lines of a table's saved form, each straight from the words of a checked table into a lent space.
#![tactic(auto)]

ghost use Rattle.std.specs.Prelude.{◌≡◌, cond, [], ◌+◌, ◌*◌, ◌<◌, ◌≤◌, eqb, pos, get_or, length};
ghost use Rattle.words_layout.specs.Layout.{count_in, objects_in, rows_at, row_width, size_in, table_of};
ghost use Rattle.table_rules.specs.Checked.{Checked};
ghost use Rattle.line_put.specs.Writing.{line_written};
ghost use Rattle.form_lines.specs.FormLines.{clock_line, closing_line, last_line, opening_line, row_line_at, total_line};

use line_put::TooShort;
use words_layout::{
    CAPACITY_AT, CLOCK_AT, CODE_AT, COUNT_AT, KEY, KINDS_AT, LOW_AT, OBJECTS_AT, OWN_AT, SIZE_AT,
    TAG_AT, UNSETTLED_AT, VECTOR_AT,
};
use words_tags::{RowCount, Station};

// `10`, from the head and the kinds.
pub fn write_opening(space: &[u32], out: &mut [u8]) -> Result<usize, TooShort>
    requires { Checked space.now }
    ensures { (result, out.new) ≡ line_written out.old (opening_line (table_of space.now).header) }
{
    let end = KINDS_AT + words_tags::wide(space[OBJECTS_AT]);
    let size = space[SIZE_AT];
    let own = space[OWN_AT];
    let capacity = space[CAPACITY_AT];
    line_print::write_opening(out, size, own, capacity, &space[KINDS_AT..end])
}

// `50`, from D.
pub fn write_clock(space: &[u32], out: &mut [u8]) -> Result<usize, TooShort>
    requires { Checked space.now }
    ensures { (result, out.new) ≡ line_written out.old (clock_line (table_of space.now).clock) }
{
    let end = CLOCK_AT + words_tags::wide(space[SIZE_AT]);
    line_print::write_clock(out, &space[CLOCK_AT..end])
}

// `51`, from a station's L.
pub fn write_last(space: &[u32], station: Station, out: &mut [u8]) -> Result<usize, TooShort>
    requires { Checked space.now × (station.0 < size_in space.now) }
    ensures { (result, out.new) ≡ line_written out.old (last_line station.0 (get_or (table_of space.now).last station.0 [])) }
{
    let size = words_tags::wide(space[SIZE_AT]);
    let at = CLOCK_AT + size + words_tags::wide(station.0) * size;
    let end = at + size;
    line_print::write_last(out, station.0, &space[at..end])
}

// `52`, from the total of an object.
pub fn write_total(space: &[u32], object: u32, out: &mut [u8]) -> Result<usize, TooShort>
    requires { Checked space.now × (object < objects_in space.now) }
    ensures { (result, out.new) ≡ line_written out.old (total_line object (get_or (table_of space.now).totals object (pos 0))) }
{
    let total = question::total_of(space, object);
    line_print::write_total(out, object, total.0, total.1)
}

// The byte that tells a settled row, from the word that is 0 in one.
#[tactic(auto, using(std::proofs::lemmas::Bool::Decides::nat_tests))]
fn settled_byte(unsettled: u32) -> u32
    ensures { result ≡ cond (eqb unsettled 0) 1 0 }
{
    if unsettled == 0 {
        line_read::SETTLED_BYTE
    } else {
        line_read::UNSETTLED_BYTE
    }
}

// Where the row behind so many others starts.
fn row_at(space: &[u32], ahead: RowCount) -> usize
    requires { Checked space.now × (ahead.0 < count_in space.now) }
    ensures { (result ≡ rows_at (size_in space.now) + ahead.0 * row_width (size_in space.now)) × (result + row_width (size_in space.now) ≤ length space.now) }
{
    let size = words_tags::wide(space[SIZE_AT]);
    table_ranges::rows_at(size) + words_tags::wide(ahead.0) * (KEY + size)
}

// `53`, from the row behind so many others: its words in another order, and its vector where it stands.
pub fn write_row(space: &[u32], ahead: RowCount, out: &mut [u8]) -> Result<usize, TooShort>
    requires { Checked space.now × (ahead.0 < count_in space.now) }
    ensures { (result, out.new) ≡ line_written out.old (row_line_at (table_of space.now) ahead.0) }
{
    let at = row_at(space, ahead);
    let from = at + VECTOR_AT;
    let end = from + words_tags::wide(space[SIZE_AT]);
    let object = space[at];
    let code = space[at + CODE_AT];
    let settled = settled_byte(space[at + UNSETTLED_AT]);
    let sender = space[at + TAG_AT];
    let value = space[at + LOW_AT];
    line_print::write_row(out, object, code, settled, sender, value, &space[from..end])
}

// `5f`, from the count of rows.
pub fn write_closing(space: &[u32], out: &mut [u8]) -> Result<usize, TooShort>
    requires { Checked space.now }
    ensures { (result, out.new) ≡ line_written out.old (closing_line (length (table_of space.now).rows)) }
{
    line_print::write_closing(out, space[COUNT_AT])
}
