ghost use Rattle.std.specs.Prelude.{◌≡◌, ◌<◌, ◌≤◌, length, MatchResult, OnErr};
ghost use Rattle.matching.specs.Lists.{first_of};
ghost use Rattle.matching.specs.Canonical.{Ascending, joins};
ghost use Rattle.keepers.specs.Tables.{capacity_of, count_of, opened_in, Stands, Gap, Inserts, Removes};

use proposals::{Layer, Pair, Proposal, Reason, Refusal};

/// The most proposals that a keeper holds.
pub const MOST_OPEN: usize = 4096;

/// The open proposals, by rising lower, then higher meter, in the first places of a lent table.
/// A count stands beside the table and not a `Vec` in its place, since keepers use no heap.
/// That they are in order is a premise of the contracts: by a rule of the project the keeper's laws are no invariant of a type.
#[derive(Drop)]
pub struct OpenTable<'a> {
    table: &'a mut [Proposal],
    len: usize,
}

/// Where the proposal for a pair stands among proposals in order, or else where it would.
fn find(opened: &[Proposal], pair: Pair) -> Result<usize, usize>
    ensures within { MatchResult result (λ i. i < length opened.now) (λ i. i ≤ length opened.now) }
    ensures exact { Ascending opened.now → MatchResult result (Stands opened.now pair.low pair.high) (Gap opened.now pair.low pair.high) }
{
    opened.binary_search_by(|proposal| proposal.pair().cmp(&pair))
}

impl<'a> OpenTable<'a> {
    /// An empty table.
    pub fn new(table: &'a mut [Proposal]) -> OpenTable<'a>
        ensures { (result.len ≡ 0) × (result.table.now ≡ table.old) }
    {
        OpenTable { table, len: 0 }
    }

    /// How many proposals it can hold.
    pub fn capacity(&self) -> usize
        ensures { result ≡ capacity_of self.now }
    {
        self.table.len().min(MOST_OPEN)
    }

    /// How many proposals are open.
    pub fn len(&self) -> usize
        ensures { result ≡ count_of self.now }
    {
        self.len.min(self.capacity())
    }

    /// The open proposals.
    pub fn opened(&self) -> &[Proposal]
        ensures { result.now ≡ opened_in self.now }
    {
        &self.table[..self.len()]
    }

    /// The open proposal for a pair.
    pub fn get(&self, pair: Pair) -> Option<Proposal>
        ensures { Ascending (opened_in self.now) → result ≡ first_of (joins pair.low pair.high) (opened_in self.now) }
    {
        let opened = self.opened();
        let at = find(opened, pair).ok()?;
        Some(opened[at])
    }

    /// Puts a proposal in at its place.
    pub fn insert(&mut self, proposal: Proposal) -> Result<(), Refusal>
        ensures refused { OnErr result (self.new ≡ self.old) }
        ensures exact { Ascending (opened_in self.old) → Inserts self.old proposal result self.new }
    {
        let Err(at) = find(self.opened(), proposal.pair()) else {
            return Err(Reason::AlreadyOpen.found_by(Layer::Keeper));
        };
        let len = self.len();
        if len >= self.capacity() {
            return Err(Reason::KeeperFull.found_by(Layer::Keeper));
        }
        self.table[len] = proposal;
        self.table[at..=len].rotate_right(1);
        self.len = len + 1;
        Ok(())
    }

    /// Takes the proposal for a pair out.
    pub fn remove(&mut self, pair: Pair) -> Result<Proposal, Refusal>
        ensures refused { OnErr result (self.new ≡ self.old) }
        ensures exact { Ascending (opened_in self.old) → Removes self.old pair result self.new }
    {
        let Ok(at) = find(self.opened(), pair) else {
            return Err(Reason::NotOpen.found_by(Layer::Keeper));
        };
        let len = self.len();
        let proposal = self.table[at];
        self.table[at..len].rotate_left(1);
        self.len = len - 1;
        Ok(proposal)
    }
}
