ghost use Rattle.std.specs.Prelude.{◌≡◌};
ghost use Rattle.matching.specs.Meanings.{Meaning, Lawful, open_count, saving_of, mate_of};
ghost use Rattle.keepers.specs.Calls.{Puts, Takes};

use proposals::{GroupSize, Pair, Proposal, Refusal};

/// The reading half of a keeper. A keeper holds the open proposals of a group and chooses, at each level,
/// some of them that share no meter, so many that every other one of that level shares a meter with a chosen one.
pub trait Reader {
    /// What the keeper means: the group's size, how many proposals it can hold, the open ones and the chosen ones.
    ghost meaning: { Self → Meaning };

    /// That the keeper is as its maker and its calls leave it; what it promises rests on this.
    ghost sound: { Self → Type 0 };

    /// A sound keeper means what a keeper means.
    ghost lawful: { (k : Self) → sound k → Lawful (meaning k) };

    /// How many meters the group has.
    fn size(&self) -> GroupSize
        ensures { sound self.now → result.meters ≡ (meaning self.now).size };

    /// How many proposals can be open at a time.
    fn capacity(&self) -> u32
        ensures { sound self.now → result ≡ (meaning self.now).capacity };

    /// How many proposals are open.
    fn open_count(&self) -> u32
        ensures { sound self.now → result ≡ open_count (meaning self.now) };

    /// The saving of the open proposal for a pair.
    fn saving(&self, pair: Pair) -> Option<u32>
        ensures { sound self.now → result ≡ saving_of (meaning self.now) pair.low pair.high };

    /// The meter that is chosen for a meter at a level; none outside the group or the levels.
    fn mate(&self, meter: u32, level: u32) -> Option<u32>
        ensures { sound self.now → result ≡ mate_of (meaning self.now) meter level };
}

/// A keeper: the reading half, with the power to open and close proposals.
/// A refused call leaves all that the keeper means. An accepted one leaves the size, the capacity, every other
/// open proposal and the choice at every other level; within the level the keeper may choose anew.
pub trait Keeper: Reader {
    /// Opens a proposal.
    fn put(&mut self, proposal: Proposal) -> Result<(), Refusal>
        ensures sound { Self.Reader.sound self.old → Self.Reader.sound self.new }
        ensures exact { Self.Reader.sound self.old → Puts (Self.Reader.meaning self.old) proposal result (Self.Reader.meaning self.new) };

    /// Closes the open proposal for a pair.
    fn take(&mut self, pair: Pair) -> Result<(), Refusal>
        ensures sound { Self.Reader.sound self.old → Self.Reader.sound self.new }
        ensures exact { Self.Reader.sound self.old → Takes (Self.Reader.meaning self.old) pair result (Self.Reader.meaning self.new) };
}
