ghost use Rattle.std.specs.Prelude.{◌≡◌, min, length, OnErr};
ghost use Rattle.matching.specs.Meanings.{bare, open_count, saving_of, mate_of};
ghost use Rattle.keepers.specs.Meant.{meaning_of, InOrder, Opens, Closes, Rejoined, Rechosen};

use crate::tables::OpenTable;
use choices::Mates;
use proposals::{GroupSize, Layer, Pair, Proposal, Refusal};

/// What each keeper here holds: how many meters the group has, the open proposals in a lent table, and the choice.
/// That it is in order is a premise of the contracts: by a rule of the project the keeper's laws are no invariant of a type.
/// The size is a plain number: the checker covers no call that is generic over a type with a `&mut` and a struct with a ghost field.
#[derive(Drop)]
pub struct Store<'a> {
    pub meters: u32,
    pub table: OpenTable<'a>,
    pub choice: Mates,
}

impl<'a> Store<'a> {
    /// A store with no open proposal.
    pub fn new(size: GroupSize, table: &'a mut [Proposal]) -> Store<'a>
        ensures means { meaning_of result ≡ bare size.meters (min (length table.old) 4096) }
        ensures order { InOrder result }
    {
        Store {
            meters: size.meters(),
            table: OpenTable::new(table),
            choice: Mates::new(),
        }
    }

    pub fn size(&self) -> GroupSize
        ensures { InOrder self.now → result.meters ≡ (meaning_of self.now).size }
    {
        GroupSize::nearest(self.meters)
    }

    pub fn capacity(&self) -> u32
        ensures { result ≡ (meaning_of self.now).capacity }
    {
        self.table.capacity() as u32
    }

    pub fn open_count(&self) -> u32
        ensures { result ≡ open_count (meaning_of self.now) }
    {
        self.table.len() as u32
    }

    pub fn saving(&self, pair: Pair) -> Option<u32>
        ensures { InOrder self.now → result ≡ saving_of (meaning_of self.now) pair.low pair.high }
    {
        self.table.get(pair).map(Proposal::saving)
    }

    pub fn mate(&self, meter: u32, level: u32) -> Option<u32>
        ensures { InOrder self.now → result ≡ mate_of (meaning_of self.now) meter level }
    {
        self.choice.mate(meter, level)
    }

    /// Opens a proposal, and leaves the choice as it is.
    pub fn insert(&mut self, proposal: Proposal) -> Result<(), Refusal>
        ensures refused { OnErr result (self.new ≡ self.old) }
        ensures exact { InOrder self.old → Opens self.old proposal result self.new }
    {
        self.size().admit(proposal.high(), Layer::Keeper)?;
        self.table.insert(proposal)
    }

    /// Closes a pair, and leaves the choice as it is.
    #[tactic(auto, using(crate::proofs::Storing::closes))]
    pub fn remove(&mut self, pair: Pair) -> Result<Proposal, Refusal>
        ensures refused { OnErr result (self.new ≡ self.old) }
        ensures exact { InOrder self.old → Closes self.old pair result self.new }
    {
        self.size().admit(pair.high(), Layer::Keeper)?;
        self.table.remove(pair)
    }

    /// Joins a meter at a level to the first meter that offers, in the order of the table, if there is one.
    pub fn rejoin(&mut self, meter: u32, level: u32)
        ensures { Rejoined self.old meter level self.new }
    {
        if let Some(proposal) = self.choice.first_offer(self.table.opened(), meter, level) {
            self.choice.join_if_free(proposal);
        }
    }

    /// Chooses anew at a level: goes through the open proposals in order, and joins the meters of each that finds both free.
    pub fn rechoose(&mut self, level: u32)
        ensures { Rechosen self.old level self.new }
    {
        self.choice.clear(level);
        self.choice.choose_in_turn(self.table.opened(), level);
    }
}
