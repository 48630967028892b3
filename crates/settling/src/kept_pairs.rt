ghost use Rattle.std.specs.Prelude.{◌≡◌, ◌+◌, ◌<◌, ◌≤◌, true, false, nat_lt, List};
ghost use Rattle.std.specs.Option.{option_map};
ghost use Rattle.proposals.specs.declared.proposals.Proposal.{Proposal};
ghost use Rattle.matching.specs.Matching.{kept};
ghost use Rattle.matching.specs.Canonical.{partner_in};
ghost use Rattle.matching.specs.Meanings.{ratio};
ghost use Rattle.choices.specs.Mates.{entry, mate_shown, joined, parted, Holds};
ghost use Rattle.settling.specs.Kept.{kept_at, height_of, partner_shown, joinable, are_mates, Symmetric, Sound, Begun, Copies};
ghost use Rattle.settling.specs.Steps.{Due, Under, PairedIn, HeightSet, Released, Wanted, Found, Coupled, Resettled};

use crate::places::Place;
use choices::Mates;
use proposals::{LEVELS, METERS};

/// A copy of a choice, and the pairs that static combining keeps of it.
#[derive(Drop)]
pub struct KeptPairs {
    choice: Mates,
    /// For each meter 0 where it is in no kept pair, else one more than that pair's level. Its partner is its mate at that level.
    /// Bytes, which are read as Options (`kept_level`): an `Option` takes two, and the walks over all meters, of which each
    /// call makes some, took 1.4 times the time.
    heights: [u8; METERS as usize],
}

impl KeptPairs {
    /// Nothing is chosen, and nothing is kept.
    pub fn new() -> KeptPairs
        ensures { Begun result }
    {
        KeptPairs {
            choice: Mates::new(),
            heights: [0; METERS as usize],
        }
    }

    /// The mate of a meter at a level in the copy; none outside the group or the levels.
    pub fn mate(&self, meter: u32, level: u32) -> Option<u32>
        ensures { result ≡ mate_shown (entry self.now.choice) meter level }
    {
        self.choice.mate(meter, level)
    }

    /// The other meter of a meter's kept pair, or none.
    pub fn partner(&self, meter: u32) -> Option<u32>
        ensures shown { result ≡ partner_shown self.now meter }
        ensures kept { (C : List Proposal) → Copies self.now C → result ≡ option_map (λ x. x.0) (partner_in (kept ratio C) meter) }
    {
        self.kept_level(meter)
            .and_then(|level| self.choice.mate(meter, level))
    }

    /// The level of a meter's kept pair, if it is in one.
    fn kept_level(&self, meter: u32) -> Option<u32>
        ensures { result ≡ kept_at self.now meter }
    {
        // A match, since by `checked_sub` the walks over all meters took longer than over Options.
        match *self.heights.get(meter as usize)? {
            0 => None,
            height => Some(u32::from(height) - 1),
        }
    }

    /// Whether a meter is in a kept pair of a level or of a higher one.
    fn is_kept_from(&self, meter: u32, level: u32) -> bool
        ensures { result ≡ nat_lt level (height_of self.now meter) }
    {
        self.kept_level(meter).is_some_and(|kept| kept >= level)
    }

    /// Writes a meter's height.
    fn set_height(&mut self, meter: u32, height: u8)
        ensures { HeightSet self.old self.new meter height }
    {
        if meter < METERS {
            self.heights[meter as usize] = height;
        }
    }

    /// Ends the kept pair of a meter, if there is one: answers its other meter, at its level.
    fn release(&mut self, meter: u32) -> Option<Place>
        ensures { Released result self.old self.new meter }
    {
        let level = self.kept_level(meter)?;
        let other = self.choice.mate(meter, level)?;
        self.set_height(meter, 0);
        self.set_height(other, 0);
        Some(Place {
            meter: other,
            level,
        })
    }

    /// Looks from a meter's level downward for one at which its mate is free or in a pair of a lower level.
    fn wanted(&self, due: Place) -> Option<Place>
        ensures { Found result self.now due }
    {
        for level in (0..=due.level).rev() {
            if self.is_kept_from(due.meter, level) {
                return None;
            }
            if let Some(mate) = self.choice.mate(due.meter, level)
                && !self.is_kept_from(mate, level)
            {
                return Some(Place { meter: mate, level });
            }
        }
        None
    }

    /// Ends the kept pairs of two meters, and keeps the pair of the two at a level: answers what each of them let go.
    fn couple(&mut self, meter: u32, mate: Place) -> (Option<Place>, Option<Place>)
        ensures choice { self.new.choice ≡ self.old.choice }
        ensures under { height_of self.old meter ≤ mate.level → height_of self.old mate.meter ≤ mate.level
            → Under result.0 mate.level × Under result.1 mate.level }
        ensures coupled { Symmetric (entry self.old.choice) → PairedIn self.old → Wanted self.old meter mate
            → Coupled self.old self.new meter mate result.0 result.1 }
    {
        let first = self.release(meter);
        let second = self.release(mate.meter);
        self.set_height(meter, mate.level as u8 + 1);
        self.set_height(mate.meter, mate.level as u8 + 1);
        (first, second)
    }

    /// Settles a meter, if one is due, at the levels from the given one down, and then the meters that this lets go.
    fn resettle(&mut self, due: Option<Place>)
        ensures { Resettled self.old self.new (Due due) }
    {
        let Some(due) = due else {
            return;
        };
        if let Some(mate) = self.wanted(due) {
            let (first, second) = self.couple(due.meter, mate);
            self.resettle(first);
            self.resettle(second);
        }
    }

    /// Whether two meters can be made mates at a level: two of the table, both free there.
    fn can_join(&self, a: u32, b: u32, level: u32) -> bool
        ensures { result ≡ joinable (entry self.now.choice) level a b }
    {
        a != b
            && a < METERS
            && b < METERS
            && level < LEVELS
            && self.choice.is_free(a, level)
            && self.choice.is_free(b, level)
    }

    // `add` and `remove` take plain numbers: a type with their bounds would ask more of callers.

    /// Enters a pair into the copy at a level, and settles. Does nothing unless both meters are free there.
    pub fn add(&mut self, a: u32, b: u32, level: u32)
        ensures added { Sound self.old → joinable (entry self.old.choice) level a b ≡ true
            → Holds self.new.choice (joined (entry self.old.choice) level a b) × Sound self.new }
        ensures otherwise { joinable (entry self.old.choice) level a b ≡ false → self.new ≡ self.old }
    {
        if self.can_join(a, b, level) {
            self.choice.join(a, b, level);
            self.resettle(Some(Place { meter: a, level }));
        }
    }

    /// Whether two meters are mates at a level.
    fn are_mates(&self, a: u32, b: u32, level: u32) -> bool
        ensures { result ≡ are_mates (entry self.now.choice) level a b }
    {
        self.choice.mate(a, level) == Some(b)
    }

    /// Takes a pair out of the copy at a level, and settles. Does nothing unless the two are mates there.
    pub fn remove(&mut self, a: u32, b: u32, level: u32)
        ensures removed { Sound self.old → are_mates (entry self.old.choice) level a b ≡ true
            → Holds self.new.choice (parted (entry self.old.choice) level a b) × Sound self.new }
        ensures otherwise { are_mates (entry self.old.choice) level a b ≡ false → self.new ≡ self.old }
    {
        if !self.are_mates(a, b, level) {
            return;
        }
        if self.kept_level(a) == Some(level) {
            self.release(a);
        }
        self.choice.part(a, b, level);
        self.resettle(Some(Place { meter: a, level }));
        self.resettle(Some(Place { meter: b, level }));
    }
}

#[cfg(test)]
mod tests {
    use super::*;

    #[test]
    fn a_chain_settles_again(rt: HostRuntime) {
        let mut kept = KeptPairs::new();
        kept.add(0, 1, 0);
        kept.add(1, 2, 1);
        kept.add(2, 3, 2);
        kept.add(3, 4, 3);
        assert_eq!(rt; kept.partner(0), None);
        assert_eq!(rt; kept.partner(1), Some(2));
        assert_eq!(rt; kept.partner(4), Some(3));
        kept.remove(3, 4, 3);
        assert_eq!(rt; kept.partner(0), Some(1));
        assert_eq!(rt; kept.partner(2), Some(3));
        assert_eq!(rt; kept.partner(4), None);
        assert_eq!(rt; kept.mate(1, 1), Some(2));
    }

    #[test]
    fn two_meters_are_let_go_at_once(rt: HostRuntime) {
        let mut kept = KeptPairs::new();
        kept.add(0, 2, 3);
        kept.add(1, 3, 3);
        kept.add(3, 4, 2);
        kept.add(2, 3, 0);
        kept.add(0, 1, 4);
        assert_eq!(rt; kept.partner(0), Some(1));
        assert_eq!(rt; kept.partner(2), None);
        assert_eq!(rt; kept.partner(3), Some(4));
        kept.remove(0, 1, 4);
        assert_eq!(rt; kept.partner(2), Some(0));
        assert_eq!(rt; kept.partner(3), Some(1));
        assert_eq!(rt; kept.partner(4), None);
    }

    #[test]
    fn what_does_not_fit_is_left_alone(rt: HostRuntime) {
        let mut kept = KeptPairs::new();
        kept.add(5, 5, 0);
        kept.add(5, 256, 0);
        kept.add(5, 6, 20);
        assert_eq!(rt; kept.partner(5), None);
        kept.add(5, 6, 7);
        kept.add(6, 7, 7);
        kept.remove(5, 7, 7);
        assert_eq!(rt; kept.partner(6), Some(5));
        assert_eq!(rt; kept.partner(7), None);
        assert_eq!(rt; kept.partner(256), None);
    }
}
