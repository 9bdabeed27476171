// The settling call on a table that was checked: Low is found, and the rows are passed once.
// Low, from the vectors of the last frames accepted.
#![tactic(auto)]

ghost use Rattle.std.specs.Prelude.{◌≡◌, true, ◌+◌, ◌*◌, ◌<◌, ◌≤◌, length, take, drop};
ghost use Rattle.meaning.specs.Order.{least_of, low_of, others_of};
ghost use Rattle.words_layout.specs.Words.{padded, pieces};
ghost use Rattle.settling.specs.Below.{others_below};
ghost use Rattle.meaning.specs.Table.{low, greatest_size, most_objects};
ghost use Rattle.meaning.specs.Calls.{rows_settled, steps, with_rows};
ghost use Rattle.words_layout.specs.Layout.{kinds_at, rewritten, size_in, table_of};
ghost use Rattle.table_change.specs.Changes.{Opened};
ghost use Rattle.table_rules.specs.Checked.{Checked};

use words_tags::{RowCount, Station};

// Lessens a vector, where it stands, by that of every station but the own one.
fn lessen_by_others(low: &mut [u32], lasts: &[u32], own: Station)
    requires { length low.old * length low.old ≤ length lasts.now }
    ensures { low.new ≡ least_of low.old (others_of own.0 (pieces (length low.old) (length low.old) lasts.now)) }
{
    let place = words_tags::wide(own.0);
    for station in 0..low.len() {
        let at = station * low.len();
        let end = at + low.len();
        if station != place {
            words_tags::lessen(low, &lasts[at..end]);
        }
    }
}

// Low, entry by entry, with zeros behind it: every L[k] is at or below D, so that the least of D and the others' is the others'.
pub fn low_of(clock: &[u32], lasts: &[u32], own: Station) -> [u32; meaning::MOST_STATIONS]
    requires clock_len_bound { (length clock.now ≤ greatest_size) × (length clock.now * length clock.now ≤ length lasts.now) }
    requires lasts_value { others_below clock.now own.0 (pieces (length clock.now) (length clock.now) lasts.now) ≡ true }
    ensures { result ≡ padded greatest_size (low_of clock.now (others_of own.0 (pieces (length clock.now) (length clock.now) lasts.now))) }
{
    let mut low = [0u32; meaning::MOST_STATIONS];
    words_moves::put(&mut low, 0, clock);
    let end = clock.len();
    lessen_by_others(&mut low[0..end], lasts, own);
    low
}

// The words of the kinds, copied so that the rows can be lent beside them.
fn kinds_of(s: &[u32]) -> [u32; meaning::MOST_OBJECTS]
    requires { Checked s.now }
    ensures { result ≡ take most_objects (drop kinds_at s.now) }
{
    let mut kinds = [0u32; meaning::MOST_OBJECTS];
    words_moves::put(
        &mut kinds,
        0,
        &s[words_layout::KINDS_AT..words_layout::TOTALS_AT],
    );
    kinds
}

// Low of a table, with zeros behind it.
fn low_in(s: &[u32], size: usize) -> [u32; meaning::MOST_STATIONS]
    requires { Checked s.now × (size ≡ size_in s.now) × (size ≤ greatest_size) }
    ensures { result ≡ padded greatest_size (low (table_of s.now)) }
{
    let end = words_layout::CLOCK_AT + size;
    low_of(
        &s[words_layout::CLOCK_AT..end],
        &s[end..],
        Station(s[words_layout::OWN_AT]),
    )
}

// The settling call with the numbers of the head in hand.
fn settle_opened(s: &mut [u32], size: usize, count: RowCount, limit: RowCount) -> RowCount
    requires { Checked s.old × Opened s.old size count.0 }
    ensures { (result.0 ≡ steps (table_of s.old) limit.0) × (s.new ≡ rewritten s.old (with_rows (table_of s.old) (rows_settled (table_of s.old) limit.0))) }
{
    let kinds = kinds_of(s);
    let low = low_in(s, size);
    let base = table_ranges::rows_at(size);
    let passed = settling_pass::pass_rows(
        &mut s[base..],
        size,
        count,
        &kinds,
        &low[0..size],
        limit,
    );
    s[words_layout::COUNT_AT] = passed.left.0;
    passed.taken
}

// Takes settling steps until the limit or until no stable unsettled row is left, and reports how many it took.
pub fn settle_table(s: &mut [u32], limit: RowCount) -> RowCount
    requires { Checked s.old }
    ensures { (result.0 ≡ steps (table_of s.old) limit.0) × (s.new ≡ rewritten s.old (with_rows (table_of s.old) (rows_settled (table_of s.old) limit.0))) }
{
    let size = words_tags::wide(s[words_layout::SIZE_AT]);
    let count = RowCount(s[words_layout::COUNT_AT]);
    settle_opened(s, size, count, limit)
}
