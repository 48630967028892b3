//! A keeper that a buyer might write, against the traits alone: it has room for one proposal, and chooses it.
ghost use Rattle.std.specs.Prelude.{◌≡◌};
ghost use Rattle.matching.specs.Meanings.{Lawful, bare};
ghost use Rattle.trials.specs.Lone.{held};

use keepers::{Keeper, Reader};
use proposals::{GroupSize, Layer, Pair, Proposal, Reason, Refusal};

/// A keeper of at most one proposal.
#[derive(Drop)]
pub struct Lone {
    size: GroupSize,
    slot: Option<Proposal>,
}

impl Lone {
    /// A keeper with nothing open.
    pub fn new(size: GroupSize) -> Lone
        ensures means { held result ≡ bare size.meters 1 }
        ensures lawful { Lawful (held result) }
    {
        Lone { size, slot: None }
    }
}

impl Reader for Lone {
    ghost meaning = { held };

    ghost sound = { λ k. Lawful (held k) };

    ghost lawful = { λ k ok. ok };

    fn size(&self) -> GroupSize {
        self.size
    }

    fn capacity(&self) -> u32 {
        1
    }

    fn open_count(&self) -> u32 {
        u32::from(self.slot.is_some())
    }

    fn saving(&self, pair: Pair) -> Option<u32> {
        let proposal = self.slot?;
        (proposal.pair() == pair).then_some(proposal.saving())
    }

    fn mate(&self, meter: u32, level: u32) -> Option<u32> {
        let proposal = self.slot?;
        if proposal.level() != level {
            None
        } else if proposal.low() == meter {
            Some(proposal.high())
        } else if proposal.high() == meter {
            Some(proposal.low())
        } else {
            None
        }
    }
}

impl Keeper for Lone {
    fn put(&mut self, proposal: Proposal) -> Result<(), Refusal> {
        self.size.admit(proposal.high(), Layer::Keeper)?;
        if self.saving(proposal.pair()).is_some() {
            return Err(Reason::AlreadyOpen.found_by(Layer::Keeper));
        }
        if self.slot.is_some() {
            return Err(Reason::KeeperFull.found_by(Layer::Keeper));
        }
        self.slot = Some(proposal);
        Ok(())
    }

    fn take(&mut self, pair: Pair) -> Result<(), Refusal> {
        self.size.admit(pair.high(), Layer::Keeper)?;
        if self.saving(pair).is_none() {
            return Err(Reason::NotOpen.found_by(Layer::Keeper));
        }
        self.slot = None;
        Ok(())
    }
}
