// The table rules of what the clock bounds: totals, and the vectors of the last frames accepted.
#![tactic(auto)]

ghost use Rattle.std.specs.Prelude.{◌≡◌, ◌*◌, ◌≤◌, ◌<◌, length, get_or};
ghost use Rattle.meaning.specs.Tests.{every_at};
ghost use Rattle.meaning.specs.Table.{sum_of_entries, total_bound, greatest_size};
ghost use Rattle.words_layout.specs.Words.{of_complement, of_two_words, pieces, word_limit};
ghost use Rattle.table_rules_clock.specs.ClockTests.{last_kept, total_kept, total_kept_at};

use table_kinds::Kind;
use words_layout::TOTAL_WORDS;
use words_tags::Station;

const GREATEST_AMOUNT: u64 = meaning::GREATEST_AMOUNT as u64;

const WORD_LIMIT: u64 = u32::MAX as u64 + 1;

// The first code of a negative total in two's complement, and the last, which is -1.
const NEGATIVE_FROM: u64 = 9223372036854775808;

const GREATEST_CODE: u64 = 18446744073709551615;

// Where the words of a total stand.
const TOTAL_HIGH_AT: usize = 0;

const TOTAL_LOW_AT: usize = 1;

// The sum of a clock's entries.
fn sum_of(clock: &[u32]) -> u64
    requires { length clock.now ≤ greatest_size }
    ensures { (result ≡ sum_of_entries clock.now) × (result ≤ greatest_size * word_limit) }
{
    let mut sum: u64 = 0;
    for entry in clock {
        sum += u64::from(*entry);
    }
    sum
}

// How far from zero a total may lie.
pub fn total_bound(clock: &[u32]) -> u64
    requires { length clock.now ≤ greatest_size }
    ensures { result ≡ total_bound clock.now }
{
    GREATEST_AMOUNT * sum_of(clock)
}

// A total's two words as one number.
pub fn code_of(words: &[u32]) -> u64
    requires { length words.now ≡ 2 }
    ensures { result ≡ of_two_words (get_or words.now 0 0) (get_or words.now 1 0) }
{
    u64::from(words[TOTAL_HIGH_AT]) * WORD_LIMIT + u64::from(words[TOTAL_LOW_AT])
}

// Whether an object of this kind may have the total of this code.
pub fn total_ok(kind: u32, code: u64, bound: u64) -> bool
    ensures { result ≡ total_kept bound kind (of_complement code) }
{
    let negative = NEGATIVE_FROM <= code;
    match Kind::try_from(kind) {
        Ok(Kind::GrowCounter) => !negative && code <= bound,
        Ok(Kind::UpDownCounter) if negative => GREATEST_CODE - code < bound,
        Ok(Kind::UpDownCounter) => code <= bound,
        _ => code == 0,
    }
}

// Whether each object may have its total.
pub fn each_total_ok(kinds: &[u32], totals: &[u32], bound: u64) -> bool
    requires { length kinds.now * 2 ≤ length totals.now }
    ensures { result ≡ every_at (total_kept_at bound kinds.now) 0 (pieces 2 (length kinds.now) totals.now) }
{
    let mut good = true;
    for k in 0..kinds.len() {
        let at = k * TOTAL_WORDS;
        good &= total_ok(kinds[k], code_of(&totals[at..at + TOTAL_WORDS]), bound);
    }
    good
}

// Whether one station's vector of the last frame accepted is what the clock allows.
pub fn last_ok(vector: &[u32], clock: &[u32], station: Station, own: Station) -> bool
    requires { length vector.now ≡ length clock.now }
    ensures { result ≡ last_kept own.0 clock.now station.0 vector.now }
{
    if station == own {
        table_rules_rows::all_zero(vector)
    } else {
        words_tags::number_at(vector, station) == words_tags::number_at(clock, station)
            && words_tags::at_most(vector, clock)
    }
}

// Whether each station's is.
pub fn each_last_ok(lasts: &[u32], clock: &[u32], own: Station) -> bool
    requires { length clock.now * length clock.now ≤ length lasts.now }
    ensures { result ≡ every_at (last_kept own.0 clock.now) 0 (pieces (length clock.now) (length clock.now) lasts.now) }
{
    let size = clock.len();
    let mut good = true;
    for station in 0..size {
        let start = station * size;
        let last = &lasts[start..start + size];
        good &= last_ok(last, clock, Station(station as u32), own);
    }
    good
}
