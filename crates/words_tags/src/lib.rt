// Tags in lent words: vectors of one entry a station, of any length, compared, lessened and advanced where they stand.
#![tactic(auto)]

ghost use Rattle.std.specs.Prelude.{◌≡◌, ◌+◌, ◌<◌, Bool, length, get_or};
ghost use Rattle.meaning.specs.Tests.{every};
ghost use Rattle.meaning.specs.Order.{at_most, same, before_by_vector, raised, least, entry_limit};
ghost use Rattle.words_tags.specs.Clocks.{clock_raised};
ghost use Rattle.words_tags.specs.Relations.{relation_of};

// "A station's place, an operation's number and a count of rows are three separate quantities."

// A station's place in the group, counted from 0.
#[derive(Clone, Copy, PartialEq, Eq, Debug)]
pub struct Station(pub u32);

// An operation's number: its vector's entry at its sender.
#[derive(Clone, Copy, PartialEq, Eq, Debug)]
pub struct Number(pub u32);

// A count of rows or of steps over them, which is never a place or a number.
#[derive(Clone, Copy, PartialEq, Eq, Debug)]
pub struct RowCount(pub u32);

// An operation's value: an amount, a member of a set or what a register holds; one word today.
#[derive(Clone, Copy, PartialEq, Eq, Debug)]
pub struct Value(pub u32);

// How one vector lies to another: exactly one of the four holds.
#[derive(Clone, Copy, PartialEq, Eq, Debug)]
pub enum Relation {
    Before,
    After,
    Same,
    Concurrent,
}

// What stands for the number where a vector has no entry.
const NO_NUMBER: u32 = 0;

// A word as a place, with its bound, so that no caller has to show that it fits.
pub fn wide(x: u32) -> usize
    ensures { (result ≡ x) × (result < entry_limit) }
{
    x as usize
}

// Whether every item passes. It goes through all of them whatever it finds, so that it can take many at a time.
pub fn every<T, F: Fn(&T) -> bool>(items: &[T], test: F) -> bool
    requires { (f : F) (x : _) → F.pre f x }
    ensures { (p : T → Bool) → ((x : _) (passed : Bool) → F.post test x passed → passed ≡ p x.now) → result ≡ every p items.now }
{
    items.iter().fold(true, |good, item| good & test(item))
}

// Whether every entry of u is at most t's, in one pass like that of `every`. As t is cut to u's length, one count ends the pass.
pub fn at_most(u: &[u32], t: &[u32]) -> bool
    requires { length u.now ≡ length t.now }
    ensures { result ≡ at_most u.now t.now }
{
    let t = &t[..u.len()];
    u.iter()
        .zip(t)
        .fold(true, |good, (entry, other)| good & (entry <= other))
}

// Whether the entries are the same, in one such pass.
pub fn same(u: &[u32], t: &[u32]) -> bool
    requires { length u.now ≡ length t.now }
    ensures { result ≡ same u.now t.now }
{
    let t = &t[..u.len()];
    u.iter()
        .zip(t)
        .fold(true, |good, (entry, other)| good & (entry == other))
}

// Whether u is at most t, and t at most u, in one such pass.
fn at_most_both_ways(u: &[u32], t: &[u32]) -> (bool, bool)
    requires { length u.now ≡ length t.now }
    ensures { (result.0 ≡ at_most u.now t.now) × (result.1 ≡ at_most t.now u.now) }
{
    let t = &t[..u.len()];
    u.iter()
        .zip(t)
        .fold((true, true), |(below, above), (entry, other)| {
            (below & (entry <= other), above & (other <= entry))
        })
}

// Which of the four holds.
pub fn compare(u: &[u32], t: &[u32]) -> Relation
    requires { length u.now ≡ length t.now }
    ensures { result ≡ relation_of u.now t.now }
{
    let (below, above) = at_most_both_ways(u, t);
    match (below, above) {
        (true, true) => Relation::Same,
        (true, false) => Relation::Before,
        (false, true) => Relation::After,
        (false, false) => Relation::Concurrent,
    }
}

// Whether u is before t.
pub fn before(u: &[u32], t: &[u32]) -> bool
    requires { length u.now ≡ length t.now }
    ensures { result ≡ before_by_vector u.now t.now }
{
    matches!(compare(u, t), Relation::Before)
}

// Lessens low, where it stands, to the entrywise least of itself and t.
pub fn lessen(low: &mut [u32], t: &[u32])
    requires { length low.old ≡ length t.now }
    ensures { low.new ≡ least low.old t.now }
{
    for i in 0..low.len() {
        low[i] = low[i].min(t[i]);
    }
}

// An operation's number: its vector's entry at its sender.
pub fn number_at(v: &[u32], sender: Station) -> Number
    ensures { result.0 ≡ get_or v.now sender.0 0 }
{
    Number(v.get(wide(sender.0)).copied().unwrap_or(NO_NUMBER))
}

// "The clock of a table lent to a call is advanced where it stands": D, as the part of the lent words where it stands.
#[derive(Drop)]
pub struct Clock<'a> {
    pub d: &'a mut [u32],
}

// Raises the sender's entry of a clock that is lent.
pub fn raise<'s, 'a>(clock: &'s mut Clock<'a>, sender: Station)
    requires { (sender.0 < length clock.old.d.now) × (get_or clock.old.d.now sender.0 0 + 1 < entry_limit) }
    ensures { clock.new ≡ clock_raised clock.old sender.0 }
{
    let entries = &mut *clock.d;
    entries[wide(sender.0)] += 1;
}

// Makes the clock of the words where D stands and lends it, so that whoever holds a table lends words alone.
pub fn advance(d: &mut [u32], sender: Station)
    requires { (sender.0 < length d.old) × (get_or d.old sender.0 0 + 1 < entry_limit) }
    ensures { d.new ≡ raised d.old sender.0 }
{
    let mut clock = Clock { d };
    raise(&mut clock, sender);
}
