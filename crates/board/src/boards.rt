ghost use Rattle.std.specs.Prelude.{◌≡◌, ℕ, ◌<◌, length, OnErr, slice_index};
ghost use Rattle.matching.specs.Meanings.{Meaning};
ghost use Rattle.settling.specs.Kept.{Copies};
ghost use Rattle.board.specs.Calls.{Proposes, Withdraws, mate_or, Changes, Refreshed};
ghost use Rattle.board.specs.Serving.{Serves};

use keepers::{Keeper, Reader};
use proposals::{LEVELS, METERS, Pair, Proposal, Refusal, level};
use settling::{KeptPairs, Row, count_differing};

/// A board holds a keeper, from opening to closing, and keeps the pairs that static combining picks from the keeper's choice.
#[derive(Drop)]
pub struct Board<K> {
    pub(crate) keeper: K,
    /// A copy of the keeper's choice, and the pairs that are kept of it.
    pub(crate) kept: KeptPairs,
}

/// What the contracts of the calls speak of.
pub trait Serving {
    /// What the board's keeper means.
    ghost meaning: { Self → Meaning };

    /// The keeper is sound, and the board keeps what static combining picks from its choice.
    ghost serves: { Self → Type 0 };
}

impl<R: Reader> Serving for Board<R> {
    ghost meaning = { λ board. R.meaning board.keeper };

    ghost serves = { λ board. Serves (R.sound board.keeper) (R.meaning board.keeper) board.kept };
}

impl<R: Reader> Board<R> {
    /// Opens a board over a keeper, whatever it holds, and keeps what static combining picks from its choice.
    pub fn open(keeper: R) -> Board<R>
        ensures keeper { result.keeper ≡ keeper }
        ensures serves { R.sound keeper → ⟦<Board<R> as Serving>⟧.serves result }
    {
        let mut kept = KeptPairs::new();
        for level in (0..LEVELS).rev() {
            kept.follow(level, &mates_of(&keeper, level));
        }
        Board { keeper, kept }
    }

    /// Gives the keeper back.
    pub fn close(self) -> R
        ensures { result ≡ self.keeper }
    {
        let Board { keeper, kept } = self;
        drop(kept);
        keeper
    }
}

impl<K: Keeper> Board<K> {
    /// Opens a proposal. Answers how many kept pairs that altered, and how many pairs came to the keeper's choice or went from it:
    /// two counts together, the form in which they are asked for.
    pub fn propose(&mut self, proposal: Proposal) -> Result<(u32, u32), Refusal>
        ensures serves { ⟦<Board<K> as Serving>⟧.serves self.old
            → ⟦<Board<K> as Serving>⟧.serves self.new }
        ensures exact { ⟦<Board<K> as Serving>⟧.serves self.old
            → Proposes (⟦<Board<K> as Serving>⟧.meaning self.old) proposal result (⟦<Board<K> as Serving>⟧.meaning self.new) }
        ensures refused { OnErr result (self.new.kept ≡ self.old.kept) }
    {
        self.keeper.put(proposal)?;
        Ok(refresh(&mut self.kept, &self.keeper, proposal.level()))
    }

    /// Closes the proposal for a pair. Answers how many kept pairs that altered, and how many pairs came to the keeper's choice or went from it.
    pub fn withdraw(&mut self, pair: Pair) -> Result<(u32, u32), Refusal>
        ensures serves { ⟦<Board<K> as Serving>⟧.serves self.old → ⟦<Board<K> as Serving>⟧.serves self.new }
        ensures exact { ⟦<Board<K> as Serving>⟧.serves self.old
            → Withdraws (⟦<Board<K> as Serving>⟧.meaning self.old) pair result (⟦<Board<K> as Serving>⟧.meaning self.new) }
        ensures refused { OnErr result (self.new.kept ≡ self.old.kept) }
    {
        let saving = self.keeper.saving(pair).unwrap_or(0);
        self.keeper.take(pair)?;
        Ok(refresh(&mut self.kept, &self.keeper, level(saving)))
    }
}

/// Takes over a keeper's choice at a level, and settles the kept pairs. Answers how many kept pairs that altered,
/// and how many pairs came to the choice or went from it.
fn refresh<R: Reader>(kept: &mut KeptPairs, reader: &R, level: u32) -> (u32, u32)
    ensures { (m : Meaning) → level < 20 → Copies kept.old m.chosen → R.sound reader.now → Changes m level (R.meaning reader.now)
        → Refreshed m (R.meaning reader.now) kept.new result }
{
    let before = kept.partners();
    let came_or_went = kept.follow(level, &mates_of(reader, level));
    let after = kept.partners();
    (count_differing(&before, &after), came_or_went)
}

/// Each meter's mate at a level in a keeper's choice, or its own number.
fn mates_of<R: Reader>(reader: &R, level: u32) -> Row
    ensures { R.sound reader.now → (v : ℕ) → v < 256 → slice_index result v ≡ mate_or (R.meaning reader.now) level v }
{
    // Not by a function of `settling` over a closure: a public one would have to ask that its closure may be called.
    let mut row = [0; METERS as usize];
    for meter in 0..METERS {
        row[meter as usize] = reader.mate(meter, level).unwrap_or(meter);
    }
    row
}
