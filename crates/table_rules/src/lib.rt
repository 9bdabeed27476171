// The one test that every outside call makes: whether lent words hold a table. What the test says of them is `Checked`, which the calls behind it stand on.
#![tactic(auto)]

ghost use Rattle.std.specs.Prelude.{◌≡◌, ◌≤◌, leb, length};
ghost use Rattle.meaning.specs.Tests.{between, every};
ghost use Rattle.words_layout.specs.Layout.{capacity_in, holds_table, objects_in, rows_in, size_in, space_for, clock_at};
ghost use Rattle.table_rules_rows.specs.RowTests.{rows_kept};
ghost use Rattle.table_rules.specs.TableTests.{clock_in, head_kept, Headed, kinds_in, kinds_kept, lasts_kept, parts_kept, sizes_kept, totals_kept, unused_kept};
ghost use Rattle.meaning.specs.Table.{greatest_size, greatest_capacity};

use words_layout::{
    CAPACITY_AT, CLOCK_AT, COUNT_AT, KEY, KINDS_AT, LOADING_AT, MARK_AT, OBJECTS_AT, OWN_AT,
    SIZE_AT, TABLE_MARK, TOTAL_WORDS, TOTALS_AT,
};
use words_tags::{RowCount, Station};

// What the seventh word holds when no load is under way.
pub const IDLE: u32 = 0;

// Whether every word is from the least to the greatest.
pub fn all_in_range(words: &[u32], least: u32, greatest: u32) -> bool
    ensures { result ≡ every (between least greatest) words.now }
{
    words_tags::every(words, |word| table_ranges::in_range(*word, least, greatest))
}

// Whether the head's numbers are in range.
pub fn sizes_ok(size: u32, own: Station, capacity: RowCount, objects: u32, count: RowCount) -> bool
    ensures { result ≡ sizes_kept size own.0 capacity.0 objects count.0 }
{
    table_ranges::in_range(size, 1, meaning::GREATEST_SIZE)
        && own.0 < size
        && table_ranges::capacity_ok(size, capacity)
        && table_ranges::in_range(objects, 1, meaning::GREATEST_COUNT)
        && count.0 <= capacity.0
}

// Whether the words are enough for the table that the head describes.
pub fn has_room(s: &[u32]) -> bool
    requires { (clock_at ≤ length s.now) × (size_in s.now ≤ greatest_size) × (capacity_in s.now ≤ greatest_capacity (size_in s.now)) }
    ensures { result ≡ leb (space_for (size_in s.now) (capacity_in s.now)) (length s.now) }
{
    table_ranges::space_for(words_tags::wide(s[SIZE_AT]), RowCount(s[CAPACITY_AT])) <= s.len()
}

// Whether the head is a table's.
fn head_ok(s: &[u32]) -> bool
    requires { clock_at ≤ length s.now }
    ensures { result ≡ head_kept s.now }
{
    s[MARK_AT] == TABLE_MARK
        && s[LOADING_AT] == IDLE
        && sizes_ok(
            s[SIZE_AT],
            Station(s[OWN_AT]),
            RowCount(s[CAPACITY_AT]),
            s[OBJECTS_AT],
            RowCount(s[COUNT_AT]),
        )
        && has_room(s)
}

// Lent words whose head is a table's, so that the parts behind it are where it says.
#[derive(Clone, Copy)]
struct HeadedWords<'a> {
    words: &'a [u32],
    ghost headed: { Headed words.now },
}

impl<'a> HeadedWords<'a> {
    // How many stations the group has.
    fn size(&self) -> usize
        ensures { result ≡ size_in self.now.words.now }
    {
        words_tags::wide(self.words[SIZE_AT])
    }

    // How many objects the table has.
    fn objects(&self) -> usize
        ensures { result ≡ objects_in self.now.words.now }
    {
        words_tags::wide(self.words[OBJECTS_AT])
    }

    // The kind of each object.
    fn kinds(&self) -> &'a [u32]
        ensures { result.now ≡ kinds_in self.now.words.now }
    {
        let end = KINDS_AT + self.objects();
        &self.words[KINDS_AT..end]
    }

    // D.
    fn clock(&self) -> &'a [u32]
        ensures { result.now ≡ clock_in self.now.words.now }
    {
        let end = CLOCK_AT + self.size();
        &self.words[CLOCK_AT..end]
    }

    // Whether the kinds are known ones, with zeros after them.
    fn kinds_ok(&self) -> bool
        ensures { result ≡ kinds_kept self.now.words.now }
    {
        let end = KINDS_AT + self.objects();
        all_in_range(self.kinds(), 1, meaning::GREATEST_KIND)
            && table_rules_rows::all_zero(&self.words[end..TOTALS_AT])
    }

    // Whether the totals are within the bound that the clock sets, with zeros after them.
    fn totals_ok(&self) -> bool
        ensures { result ≡ totals_kept self.now.words.now }
    {
        let end = TOTALS_AT + self.objects() * TOTAL_WORDS;
        let bound = table_rules_clock::total_bound(self.clock());
        table_rules_clock::each_total_ok(self.kinds(), &self.words[TOTALS_AT..], bound)
            && table_rules_rows::all_zero(&self.words[end..CLOCK_AT])
    }

    // Whether the vectors of the last frames accepted are what the clock allows.
    fn lasts_ok(&self) -> bool
        ensures { result ≡ lasts_kept self.now.words.now }
    {
        let lasts = &self.words[CLOCK_AT + self.size()..];
        table_rules_clock::each_last_ok(lasts, self.clock(), Station(self.words[OWN_AT]))
    }

    // Whether the rows keep their rules.
    fn rows_kept(&self) -> bool
        ensures { result ≡ rows_kept (kinds_in self.now.words.now) (clock_in self.now.words.now) (rows_in self.now.words.now) }
    {
        let size = self.size();
        let start = table_ranges::rows_at(size);
        table_rules_rows::rows_ok(
            &self.words[start..],
            KEY + size,
            RowCount(self.words[COUNT_AT]),
            self.kinds(),
            self.clock(),
        )
    }

    // Whether the words from the last row up to the end of the capacity are 0.
    fn unused_ok(&self) -> bool
        ensures { result ≡ unused_kept self.now.words.now }
    {
        let size = self.size();
        let start = table_ranges::space_for(size, RowCount(self.words[COUNT_AT]));
        let end = table_ranges::space_for(size, RowCount(self.words[CAPACITY_AT]));
        table_rules_rows::all_zero(&self.words[start..end])
    }

    // Whether all that stands behind the head keeps the rules.
    fn parts_ok(&self) -> bool
        ensures { result ≡ parts_kept self.now.words.now }
    {
        self.kinds_ok()
            && self.totals_ok()
            && self.lasts_ok()
            && self.rows_kept()
            && self.unused_ok()
    }
}

// Whether the words hold a table by the table rules, whatever they are and however many.
pub fn is_table(s: &[u32]) -> bool
    ensures { result ≡ holds_table s.now }
{
    CLOCK_AT <= s.len() && head_ok(s) && HeadedWords { words: s }.parts_ok()
}
