// A frame's entries against D and against its sender's last vector: known already, too early, falling behind; and the own number at its end.
#![tactic(auto)]

ghost use Rattle.std.specs.Prelude.{◌≡◌, cond, ◌*◌, ◌≤◌, suc, eqb, leb, length, get_or};
ghost use Rattle.meaning.specs.Order.{at_most, entry_limit, raised};
ghost use Rattle.refusal_time.specs.Lasts.{last_of};
ghost use Rattle.meaning.specs.Table.{greatest_size};

use words_tags::Station;

// Whether a frame's number is at most D's entry of its sender: that operation was accepted before.
pub fn is_known(v: &[u32], clock: &[u32], sender: Station) -> bool
    ensures { result ≡ leb (get_or v.now sender.0 0) (get_or clock.now sender.0 0) }
{
    words_tags::number_at(v, sender).0 <= words_tags::number_at(clock, sender).0
}

// Whether the own number is the greatest already, so that none is left.
pub fn is_last(clock: &[u32], own: Station) -> bool
    ensures { result ≡ eqb (suc (get_or clock.now own.0 0)) entry_limit }
{
    words_tags::number_at(clock, own).0 == meaning::GREATEST_NUMBER
}

// Whether an entry of a vector is at most D's, or at most one more where it is the sender's own.
fn entry_in_time(entry: u32, known: u32, own: bool) -> bool
    ensures { result ≡ leb entry (cond own (suc known) known) }
{
    entry <= known || own && entry - known == 1
}

// Whether no entry comes too early; it notes a fault and goes on to the end, as words_tags::at_most does.
pub fn in_time(v: &[u32], clock: &[u32], sender: Station) -> bool
    requires { length v.now ≡ length clock.now }
    ensures { result ≡ at_most v.now (raised clock.now sender.0) }
{
    let at = words_tags::wide(sender.0);
    let mut good = true;
    for i in 0..v.len() {
        good &= entry_in_time(v[i], clock[i], i == at);
    }
    good
}

// Whether no entry lies below the sender's last vector; a sender outside of the group has none.
pub fn keeps_rising(lasts: &[u32], v: &[u32], sender: Station) -> bool
    requires { (length v.now * length v.now ≤ length lasts.now) × (length v.now ≤ greatest_size) }
    ensures { result ≡ at_most (last_of (length v.now) lasts.now sender.0) v.now }
{
    let at = words_tags::wide(sender.0);
    if v.len() <= at {
        return true;
    }
    let start = at * v.len();
    let end = start + v.len();
    words_tags::at_most(&lasts[start..end], v)
}
