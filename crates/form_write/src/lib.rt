// The saved form of a checked table, a line at a time: which line stands at a place, and that line written into a lent space.
#![tactic(auto)]

ghost use Rattle.std.specs.Prelude.{◌≡◌, ◌++◌, ◌+◌, ◌<◌};
ghost use Rattle.words_layout.specs.Words.{word_limit};
ghost use Rattle.words_layout.specs.Layout.{table_of};
ghost use Rattle.table_rules.specs.Checked.{Checked};
ghost use Rattle.form_write.specs.Forms.{line_at, row_lines, saved_form, total_lines};
ghost use Rattle.form_write.specs.Seeking.{counter_at, other_at};

use line_put::TooShort;
use words_layout::{COUNT_AT, KINDS_AT, OBJECTS_AT, OWN_AT, SIZE_AT};
use words_tags::{RowCount, Station};

// Where the first lines of a form stand.
const OPENING_PLACE: usize = 0;

const CLOCK_PLACE: usize = 1;

const LASTS_PLACE: usize = 2;

// Which other station has so many other stations ahead of it: the own one is passed over.
#[tactic(auto, using(std::proofs::lemmas::Bool::Decides::nat_tests), unfolding(crate::specs::Seeking::other_at))]
pub fn other(own: Station, ahead: u32) -> Station
    requires { ahead + 1 < word_limit }
    ensures { result.0 ≡ other_at own.0 ahead }
{
    if ahead < own.0 {
        Station(ahead)
    } else {
        Station(ahead + 1)
    }
}

// Which object is the counter that has so many counters ahead of it; or what is left of the number when all counters are passed.
pub fn counter(kinds: &[u32], ahead: usize) -> Result<usize, usize>
    ensures { result ≡ counter_at kinds.now 0 ahead }
{
    let mut left = ahead;
    for (object, kind) in kinds.iter().enumerate() {
        if table_kinds::is_counter(*kind) {
            if left == 0 {
                return Ok(object);
            }
            left -= 1;
        }
    }
    Err(left)
}

// The lines behind the totals: a line for each row, and the closing line.
fn write_behind_totals(
    space: &[u32],
    place: usize,
    out: &mut [u8],
) -> Result<Option<usize>, TooShort>
    requires { Checked space.now }
    ensures { (result, out.new) ≡ line_at (row_lines (table_of space.now)) place out.old }
{
    let rows = words_tags::wide(space[COUNT_AT]);
    if place < rows {
        form_lines::write_row(space, RowCount(place as u32), out).map(Some)
    } else if place == rows {
        form_lines::write_closing(space, out).map(Some)
    } else {
        Ok(None)
    }
}

// The lines behind the last vectors: a line for each counter, and what is behind them.
fn write_behind_lasts(
    space: &[u32],
    place: usize,
    out: &mut [u8],
) -> Result<Option<usize>, TooShort>
    requires { Checked space.now }
    ensures { (result, out.new) ≡ line_at (total_lines (table_of space.now) ++ row_lines (table_of space.now)) place out.old }
{
    let end = KINDS_AT + words_tags::wide(space[OBJECTS_AT]);
    match counter(&space[KINDS_AT..end], place) {
        Ok(object) => form_lines::write_total(space, object as u32, out).map(Some),
        Err(left) => write_behind_totals(space, left, out),
    }
}

// The line of the form at a place, into a space: how many characters it has, or that there is none behind the last line.
pub fn write_line(space: &[u32], k: usize, out: &mut [u8]) -> Result<Option<usize>, TooShort>
    requires { Checked space.now }
    ensures { (result, out.new) ≡ line_at (saved_form (table_of space.now)) k out.old }
{
    // The own station has no line: one line less than there are stations follows that of the clock.
    let lasts_end = CLOCK_PLACE + words_tags::wide(space[SIZE_AT]);
    if k == OPENING_PLACE {
        form_lines::write_opening(space, out).map(Some)
    } else if k == CLOCK_PLACE {
        form_lines::write_clock(space, out).map(Some)
    } else if k < lasts_end {
        let station = other(Station(space[OWN_AT]), (k - LASTS_PLACE) as u32);
        form_lines::write_last(space, station, out).map(Some)
    } else {
        write_behind_lasts(space, k - lasts_end, out)
    }
}
