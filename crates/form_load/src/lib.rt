// A saved form read a line at a time into lent words: which line comes next, and that line taken. Any words will do, and any line.
#![tactic(auto)]

ghost use Rattle.std.specs.Prelude.{◌≡◌, true, ◌≤◌, length};
ghost use Rattle.words_layout.specs.Layout.{clock_at};
ghost use Rattle.line_decode.specs.Decoding.{bytes_of};
ghost use Rattle.refusal_number.specs.Numbers.{numbered};
ghost use Rattle.call_checked.specs.Called.{opened_by};
ghost use Rattle.form_row.specs.LoadHead.{LoadHead};
ghost use Rattle.form_load.specs.Loading.{begun, behind_lasts, first_taken, head_loads, load_ended, load_waits, loaded_by, next_in, taken_as, under_load, waits};

use form_take::Loaded;
use line_decode::LineKind;
use refusal_number::Refusal;
use words_layout::{
    CAPACITY_AT, CLOCK_AT, COUNT_AT, KINDS_AT, LOADING_AT, MARK_AT, OBJECTS_AT, OWN_AT, SIZE_AT,
    TABLE_MARK,
};
use words_tags::{RowCount, Station};

// The progress of a load whose opening line was taken, and of one that has D too.
const OPENED: u32 = 1;

const CLOCKED: usize = 2;

// What comes next in a form: D, a station's last vector, a counter's total, a row or the closing line, or nothing that a load waits for.
#[derive(Clone, Copy, Debug, PartialEq, Eq)]
pub enum Next {
    Clock,
    Last(Station),
    Total(usize),
    Rows,
    Nothing,
}

// What comes next behind the last vectors.
#[tactic(auto, unfolding(crate::specs::Loading::behind_lasts))]
fn behind_lasts(found: Result<usize, usize>) -> Next
    ensures { result ≡ behind_lasts found }
{
    match found {
        Ok(object) => Next::Total(object),
        Err(0) => Next::Rows,
        Err(_) => Next::Nothing,
    }
}

// What comes next.
fn next_in(space: &[u32]) -> Next
    requires { LoadHead space.now }
    ensures { result ≡ next_in space.now }
{
    if space[LOADING_AT] == table_rules::IDLE {
        return Next::Nothing;
    }
    if space[LOADING_AT] == OPENED {
        return Next::Clock;
    }
    let progress = words_tags::wide(space[LOADING_AT]);
    let size = words_tags::wide(space[SIZE_AT]);
    if progress <= size {
        return Next::Last(form_write::other(Station(space[OWN_AT]), (progress - CLOCKED) as u32));
    }
    let end = KINDS_AT + words_tags::wide(space[OBJECTS_AT]);
    behind_lasts(form_write::counter(&space[KINDS_AT..end], progress - (size + 1)))
}

// Whether something comes next, with no row taken before its turn.
#[tactic(auto, unfolding(crate::specs::Loading::waits))]
fn waits_for(next: Next, rows: RowCount) -> bool
    ensures { result ≡ waits next rows.0 }
{
    match next {
        Next::Clock | Next::Last(_) | Next::Total(_) => rows.0 == 0,
        Next::Rows => true,
        Next::Nothing => false,
    }
}

// Whether the head is that of a table which the space has room for.
fn head_loads(space: &[u32]) -> bool
    requires { clock_at ≤ length space.now }
    ensures { result ≡ head_loads space.now }
{
    space[MARK_AT] == TABLE_MARK
        && table_rules::sizes_ok(
            space[SIZE_AT],
            Station(space[OWN_AT]),
            RowCount(space[CAPACITY_AT]),
            space[OBJECTS_AT],
            RowCount(space[COUNT_AT]),
        )
        && table_rules::has_room(space)
}

// Whether the kinds are known ones and something comes next.
fn load_waits(space: &[u32]) -> bool
    requires { LoadHead space.now }
    ensures { result ≡ load_waits space.now }
{
    let end = KINDS_AT + words_tags::wide(space[OBJECTS_AT]);
    table_rules::all_in_range(&space[KINDS_AT..end], 1, meaning::GREATEST_KIND)
        && waits_for(next_in(space), RowCount(space[COUNT_AT]))
}

// Whether the words are those of a load under way, whatever they are and however many.
fn under_load(space: &[u32]) -> bool
    ensures { result ≡ under_load space.now }
{
    CLOCK_AT <= space.len() && head_loads(space) && load_waits(space)
}

// The bytes of a line to a space under load, by what comes next.
fn take_bytes(space: &mut [u32], bytes: &[u8]) -> Result<Loaded, Refusal>
    requires { under_load space.old ≡ true }
    ensures { (numbered result, space.new) ≡ taken_as (next_in space.old) bytes.now space.old }
{
    match next_in(space) {
        Next::Clock => form_take::take_clock(space, bytes),
        Next::Last(station) => form_take::take_last(space, bytes, station),
        Next::Total(object) => form_take::take_total(space, bytes, object),
        Next::Rows => form_take::take_row_or_close(space, bytes),
        Next::Nothing => form_take::spoil(space),
    }
}

// A line to a space under load.
fn take_line(space: &mut [u32], line: &[u8]) -> Result<Loaded, Refusal>
    requires { under_load space.old ≡ true }
    ensures { (numbered result, space.new) ≡ taken_as (next_in space.old) (bytes_of line.now) space.old }
{
    let mut bytes = [0u8; line_read::LONGEST];
    let n = line_decode::decode_line(line, &mut bytes);
    take_bytes(space, &bytes[0..n])
}

// An opening line begins a load: the fresh table is marked as one under load.
fn begin(space: &mut [u32], line: &[u8]) -> Result<Loaded, Refusal>
    ensures { (numbered result, space.new) ≡ begun (opened_by line.now space.old) }
{
    call_checked::open_line(space, line)?;
    space[LOADING_AT] = OPENED;
    Ok(Loaded::Taken)
}

// A line when no load is under way.
fn first_line(space: &mut [u32], line: &[u8]) -> Result<Loaded, Refusal>
    ensures { (numbered result, space.new) ≡ first_taken line.now space.old }
{
    match line_decode::kind_of(line) {
        LineKind::Opening => begin(space, line),
        LineKind::Saved => Err(Refusal::Wrong),
        _ => Err(Refusal::Misshapen),
    }
}

// The next line of a form to a space: taken, refused with its number, or the one that makes the space a table.
pub fn load_line(space: &mut [u32], line: &[u8]) -> Result<Loaded, Refusal>
    ensures { (numbered result, space.new) ≡ loaded_by line.now space.old }
{
    if under_load(space) {
        return take_line(space, line);
    }
    first_line(space, line)
}

// The end of a form: nothing where its table is there, zeros where the load is not closed.
pub fn load_end(space: &mut [u32]) -> Result<Loaded, Refusal>
    ensures { (numbered result, space.new) ≡ load_ended space.old }
{
    if table_rules::is_table(space) {
        return Ok(Loaded::Table);
    }
    if under_load(space) {
        return form_take::spoil(space);
    }
    Err(Refusal::Wrong)
}
