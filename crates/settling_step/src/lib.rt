// What becomes of a row where rows are passed: whether it is due, and what its step is by what stands beside it.
#![tactic(auto)]

ghost use Rattle.std.specs.Prelude.{◌≡◌, ◌∷◌, ◌++◌, map, ◌+◌, ◌*◌, ◌≤◌, length, take, drop};
ghost use Rattle.meaning.specs.Settling.{due};
ghost use Rattle.words_layout.specs.Words.{pieces};
ghost use Rattle.words_layout.specs.Layout.{row_of, row_width};
ghost use Rattle.table_insert.specs.Placing.{key_words};
ghost use Rattle.settling_step.specs.Standing.{seen, stands_as};
ghost use Rattle.settling_step.specs.Stepping.{add_decided, beside, beside_last, beside_next, decided, remove_decided, step_for};
ghost use Rattle.settling_step.specs.Held.{Held, kind_at, rows_from};
ghost use Rattle.meaning.specs.Table.{greatest_size};

use words_tags::RowCount;

// A row of the same value beside a row: whether it adds, and whether it is settled.
#[derive(Clone, Copy, Debug, PartialEq, Eq)]
pub struct Neighbour {
    pub adds: bool,
    pub settled: bool,
}

// What becomes of a row: it is kept as it is, it becomes settled, it is dropped, or it is dropped and a settled remove behind it as well.
#[derive(Clone, Copy, Debug, PartialEq, Eq)]
pub enum Step {
    Keeps,
    Settles,
    Drops,
    DropsBoth,
}

// Whether a row is due: unsettled, and stable by Low.
fn is_due(row: &[u32], low: &[u32]) -> bool
    requires { length row.now ≡ row_width (length low.now) }
    ensures { result ≡ due low.now (row_of row.now) }
{
    row[words_layout::UNSETTLED_AT] != 0
        && words_tags::at_most(&row[words_layout::VECTOR_AT..], low)
}

// A row as the neighbour of another, where it is of the same value.
fn compared(row: &[u32], other: &[u32]) -> Option<Neighbour>
    requires { (key_words ≤ length row.now) × (key_words ≤ length other.now) }
    ensures { result ≡ seen (beside (row_of row.now).operation (row_of other.now)) }
{
    let same = words_tags::same(
        &row[words_layout::OBJECT_AT..words_layout::CODE_AT],
        &other[words_layout::OBJECT_AT..words_layout::CODE_AT],
    );
    if same {
        Some(Neighbour {
            adds: other[words_layout::CODE_AT] == table_kinds::ADDS,
            settled: other[words_layout::UNSETTLED_AT] == 0,
        })
    } else {
        None
    }
}

// What stands before the row at a place: the last of so many rows kept at the front.
fn before(rows: &[u32], width: usize, at: usize, left: RowCount) -> Option<Neighbour>
    requires { (key_words ≤ width) × (left.0 * width ≤ at) × (at + width ≤ length rows.now) }
    ensures { result ≡ seen (beside_last (row_of (take width (drop at rows.now))).operation (map row_of (pieces width left.0 rows.now))) }
{
    if left.0 == 0 {
        return None;
    }
    let end = at + width;
    let to = words_tags::wide(left.0) * width;
    compared(&rows[at..end], &rows[to - width..to])
}

// What stands behind the row at a place, where so many rows follow it.
fn behind(rows: &[u32], width: usize, at: usize, more: RowCount) -> Option<Neighbour>
    requires { (key_words ≤ width) × (at + width + more.0 * width ≤ length rows.now) × (at + width ≤ length rows.now) }
    ensures { result ≡ seen (beside_next (row_of (take width (drop at rows.now))).operation (map row_of (pieces width more.0 (drop (at + width) rows.now)))) }
{
    if more.0 == 0 {
        return None;
    }
    let next = at + width;
    let end = next + width;
    compared(&rows[at..next], &rows[next..end])
}

// What becomes of a remove where removes stand: it is settled if adds are all that stands beside it.
#[tactic(auto, unfolding(crate::specs::Stepping::remove_decided))]
fn remove_step(before: Option<Neighbour>, behind: Option<Neighbour>) -> Step
    ensures { result ≡ remove_decided (stands_as before) (stands_as behind) }
{
    match (before, behind) {
        (Some(before), None) if before.adds => Step::Settles,
        _ => Step::Drops,
    }
}

// What becomes of any other row: it is settled if nothing stands beside it, and where removes stand the last add takes a settled remove along.
#[tactic(auto, unfolding(crate::specs::Stepping::add_decided))]
fn add_step(stands: bool, before: Option<Neighbour>, behind: Option<Neighbour>) -> Step
    ensures { result ≡ add_decided stands (stands_as before) (stands_as behind) }
{
    match (before, behind) {
        (None, None) => Step::Settles,
        (None, Some(behind)) if stands && !behind.adds && behind.settled => Step::DropsBoth,
        _ => Step::Drops,
    }
}

// What becomes of a row of this kind and code.
#[tactic(auto, unfolding(crate::specs::Stepping::decided))]
fn decide(kind: u32, code: u32, before: Option<Neighbour>, behind: Option<Neighbour>) -> Step
    ensures { result ≡ decided kind code (stands_as before) (stands_as behind) }
{
    let stands = table_kinds::removes_stand(kind);
    if stands && code != table_kinds::ADDS {
        remove_step(before, behind)
    } else {
        add_step(stands, before, behind)
    }
}

// What becomes of the row at a place: it is kept unless it is due. So many rows are kept at the front, and so many follow it.
pub fn step_for(
    rows: &[u32],
    size: usize,
    at: usize,
    left: RowCount,
    more: RowCount,
    kinds: &[u32],
    low: &[u32],
) -> Step
    requires low_len { (length low.now ≡ size) × (size ≤ greatest_size) × (left.0 * row_width size ≤ at) × (at + row_width size ≤ length rows.now) × (at + row_width size + more.0 * row_width size ≤ length rows.now) }
    requires held { Held kinds.now size (pieces (row_width size) left.0 rows.now ++ (take (row_width size) (drop at rows.now) ∷ pieces (row_width size) more.0 (drop (at + row_width size) rows.now))) }
    ensures { result ≡ step_for (kind_at kinds.now) low.now (rows_from size left.0 rows.now) (row_of (take (row_width size) (drop at rows.now))) (rows_from size more.0 (drop (at + row_width size) rows.now)) }
{
    let width = words_layout::VECTOR_AT + size;
    let end = at + width;
    if is_due(&rows[at..end], low) {
        let kind = table_kinds::kind_of(kinds, rows[at]);
        let above = before(rows, width, at, left);
        let below = behind(rows, width, at, more);
        decide(kind, rows[at + words_layout::CODE_AT], above, below)
    } else {
        Step::Keeps
    }
}
