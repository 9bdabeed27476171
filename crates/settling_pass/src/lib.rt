// Settling in lent words: rows are passed once, and each that is due is settled or dropped.
#![tactic(auto)]

ghost use Rattle.std.specs.Prelude.{◌≡◌, ◌++◌, map, ◌+◌, ◌*◌, ◌≤◌, ◌<◌, length, take, drop};
ghost use Rattle.meaning.specs.Rows.{settled_row};
ghost use Rattle.words_layout.specs.Words.{flat, padded, pieces};
ghost use Rattle.words_layout.specs.Layout.{row_of, row_width, row_words};
ghost use Rattle.settling_step.specs.Held.{Held, rows_from};
ghost use Rattle.settling_pass.specs.Passing.{closed_up, place_limit, rows_then, steps_then};
ghost use Rattle.meaning.specs.Table.{greatest_size};

use settling_step::Step;
use words_tags::RowCount;

// What a pass leaves: so many rows, after so many steps.
#[derive(Clone, Copy)]
pub struct Passed {
    pub left: RowCount,
    pub taken: RowCount,
}

// Settles a row where it stands: its tag is wiped.
pub fn settle_row(rows: &mut [u32], at: usize, size: usize)
    requires { (at + row_width size ≤ length rows.old) × (size ≤ greatest_size) × (row_words size (row_of (take (row_width size) (drop at rows.old))) ≡ take (row_width size) (drop at rows.old)) }
    ensures { rows.new ≡ take at rows.old ++ (row_words size (settled_row (row_of (take (row_width size) (drop at rows.old))).operation) ++ drop (at + row_width size) rows.old) }
{
    let start = at + words_layout::UNSETTLED_AT;
    words_moves::clear(rows, start, at + words_layout::VECTOR_AT + size);
}

// Moves a run of words down to a place, with zeros where it left room.
fn close_up(rows: &mut [u32], from: usize, to: usize, run: usize)
    requires { (to ≤ from) × (from + run ≤ length rows.old) }
    ensures { rows.new ≡ closed_up rows.old from to run }
{
    words_moves::copy_down(rows, run, from, to);
    words_moves::clear(rows, to + run, from + run);
}

// Where a pass goes on behind the row at a place: no row above it is due any more, so it need not go back.
fn resume_at(at: usize, width: usize) -> usize
    requires { at + width < place_limit }
    ensures { result ≡ at + width }
{
    at + width
}

// Takes settling steps until the limit or until no row is due: one pass with a reading and a writing place.
pub fn pass_rows(
    rows: &mut [u32],
    size: usize,
    count: RowCount,
    kinds: &[u32],
    low: &[u32],
    limit: RowCount,
) -> Passed
    requires { (length low.now ≡ size) × (size ≤ greatest_size) × (count.0 * row_width size ≤ length rows.old) × Held kinds.now size (pieces (row_width size) count.0 rows.old) }
    ensures { (result.left.0 ≡ length (rows_then kinds.now low.now limit.0 (rows_from size count.0 rows.old))) × (result.taken.0 ≡ steps_then kinds.now low.now limit.0 (rows_from size count.0 rows.old)) × (rows.new ≡ padded (count.0 * row_width size) (flat (map (row_words size) (rows_then kinds.now low.now limit.0 (rows_from size count.0 rows.old)))) ++ drop (count.0 * row_width size) rows.old) }
{
    let width = words_layout::VECTOR_AT + size;
    let mut from = 0;
    let mut to = 0;
    let mut more = count.0;
    let mut left: u32 = 0;
    let mut taken: u32 = 0;
    while 0 < more {
        if limit.0 <= taken {
            break;
        }
        let at = from;
        from = resume_at(at, width);
        more -= 1;
        match settling_step::step_for(rows, size, at, RowCount(left), RowCount(more), kinds, low) {
            Step::Keeps => {
                words_moves::copy_down(rows, width, at, to);
                to += width;
                left += 1;
            }
            Step::Settles => {
                settle_row(rows, at, size);
                words_moves::copy_down(rows, width, at, to);
                to += width;
                left += 1;
                taken += 1;
            }
            Step::Drops => taken += 1,
            Step::DropsBoth => {
                taken += 1;
                more -= 1;
                from = resume_at(from, width);
            }
        }
    }
    close_up(rows, from, to, words_tags::wide(more) * width);
    Passed {
        left: RowCount(left + more),
        taken: RowCount(taken),
    }
}
