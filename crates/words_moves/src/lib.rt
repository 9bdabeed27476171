// Words moved where they stand: copied down, moved up, written and cleared. Nothing here knows what the words mean.
#![tactic(auto)]

ghost use Rattle.std.specs.Prelude.{◌≡◌, ◌++◌, ◌+◌, ◌-◌, ◌≤◌, length, take, drop, replicate};
ghost use Rattle.std.proofs.Math.Seq.{paste, slice};

// Copies a run of words from one place to another below it; the two may overlap. At the same place nothing is to be done.
pub fn copy_down(words: &mut [u32], run: usize, from: usize, to: usize)
    requires { (to ≤ from) × (from + run ≤ length words.old) }
    ensures { words.new ≡ paste words.old to (drop from words.old) run }
{
    if to < from {
        for j in 0..run {
            words[to + j] = words[from + j];
        }
    }
}

// Zeros from one place up to another.
pub fn clear(words: &mut [u32], start: usize, end: usize)
    requires { (start ≤ end) × (end ≤ length words.old) }
    ensures { words.new ≡ take start words.old ++ replicate (end - start) 0 ++ drop end words.old }
{
    words[start..end].fill(0);
}

// Moves the words from one place up to another higher by a gap, the last first, since the two may overlap.
pub fn move_up(words: &mut [u32], start: usize, end: usize, gap: usize)
    requires { (start ≤ end) × (end + gap ≤ length words.old) }
    ensures { words.new ≡ take (start + gap) words.old ++ slice start end words.old ++ drop (end + gap) words.old }
{
    for i in (start..end).rev() {
        words[i + gap] = words[i];
    }
}

// Writes some words, or characters, at a place.
pub fn put<T: Copy>(words: &mut [T], at: usize, new: &[T])
    requires { at + length new.now ≤ length words.old }
    ensures { words.new ≡ paste words.old at new.now (length new.now) }
{
    let end = at + new.len();
    words[at..end].copy_from_slice(new);
}
