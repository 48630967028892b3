ghost use Rattle.std.specs.Prelude.{◌≡◌, ℕ, ◌<◌, ◌≤◌, Option, List, slice_index};
ghost use Rattle.std.specs.Option.{unwrap_or};
ghost use Rattle.choices.specs.Mates.{entry};
ghost use Rattle.settling.specs.Kept.{partner_shown, Sound};
ghost use Rattle.settling.specs.Counts.{lost, differing};
ghost use Rattle.settling.specs.Following.{Involution, Forgotten, Learnt, Follows, row};
ghost use Rattle.settling.specs.declared.kept_pairs.KeptPairs.{KeptPairs as Kept};

use crate::kept_pairs::KeptPairs;
use proposals::METERS;
use std::array;

/// A row of partners: for each meter its partner, or its own number where it has none.
/// No `Option`s: a row of own numbers is a matching that undoes itself, and two rows differ where their numbers do.
pub type Row = [u32; METERS as usize];

/// The row of the partners that a function gives.
fn row_of<F: Fn(u32) -> Option<u32>>(partner: F) -> Row
    requires { F.IsAlwaysCallable partner }
    ensures { (v : ℕ) → v < 256 → (shown : Option ℕ) × F.post partner v shown × (slice_index result v ≡ unwrap_or shown v) }
{
    array::from_fn(|index| {
        let meter = index as u32;
        partner(meter).unwrap_or(meter)
    })
}

/// Whether a meter is the lower one of a pair of `a` that is none of `b`.
fn is_lost(a: &Row, b: &Row, meter: u32) -> bool
    requires { meter < 256 }
    ensures { result ≡ lost (row a.now) (row b.now) meter }
{
    let partner = a[meter as usize];
    meter < partner && partner != b[meter as usize]
}

/// How many pairs are in exactly one of two rows of partners.
pub fn count_differing(a: &Row, b: &Row) -> u32
    ensures { result ≡ differing (row a.now) (row b.now) 256 }
{
    (0..METERS)
        .map(|meter| u32::from(is_lost(a, b, meter)) + u32::from(is_lost(b, a, meter)))
        .sum()
}

impl KeptPairs {
    /// Each meter's partner in its kept pair, or its own number.
    pub fn partners(&self) -> Row
        ensures { (v : ℕ) → v < 256 → slice_index result v ≡ unwrap_or (partner_shown self.now v) v }
    {
        row_of(|meter| self.partner(meter))
    }

    /// Each meter's mate at a level, or its own number.
    fn mates(&self, level: u32) -> Row
        ensures { level < 20 → (v : ℕ) → v < 256 → slice_index result v ≡ entry self.now.choice level v }
    {
        row_of(|meter| self.mate(meter, level))
    }

    /// Takes the pairs of a level from a row of mates: first removes each pair that is gone, then adds each that came.
    /// Answers how many pairs came or went.
    pub fn follow(&mut self, level: u32, new: &Row) -> u32
        ensures follows { Sound self.old → level < 20 → Involution (row new.now) → Follows self.old level (row new.now) self.new }
        ensures count { level < 20 → (old : List ℕ) → ((v : ℕ) → v < 256 → row old v ≡ entry self.old.choice level v) → result ≡ differing (row old) (row new.now) 256 }
        ensures entries { level < 20 → result ≡ differing (entry self.old.choice level) (row new.now) 256 }
    {
        let old = self.mates(level);
        self.forget(level, &old, new);
        self.learn(level, &old, new);
        count_differing(&old, new)
    }

    // `forget` and `learn` are two loops: one loop over a closure that changes `self` would need a contract over the
    // references of its calls, which is longer than both. They go by the meter's number, which is what they remove or add.

    /// Removes each pair of a level that is in the old row and not in the new one.
    fn forget(&mut self, level: u32, old: &Row, new: &Row)
        ensures { (k : Kept) → level < 20 → Involution (row old.now) → Forgotten k level (row old.now) (row new.now) 0 self.old → Forgotten k level (row old.now) (row new.now) 256 self.new }
    {
        for meter in 0..METERS {
            if is_lost(old, new, meter) {
                self.remove(meter, old[meter as usize], level);
            }
        }
    }

    /// Adds each pair of a level that is in the new row and not in the old one.
    fn learn(&mut self, level: u32, old: &Row, new: &Row)
        ensures { (k : Kept) → level < 20 → Involution (row old.now) → Involution (row new.now) → Learnt k level (row old.now) (row new.now) 0 self.old → Learnt k level (row old.now) (row new.now) 256 self.new }
    {
        for meter in 0..METERS {
            if is_lost(new, old, meter) {
                self.add(meter, new[meter as usize], level);
            }
        }
    }
}
