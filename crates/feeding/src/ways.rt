ghost use Rattle.std.specs.Prelude.{◌≡◌};
ghost use Rattle.matching.specs.Meanings.{Lawful, Meaning};
ghost use Rattle.keepers.specs.Calls.{Puts, Takes};

use board::{Board, Serving};
use keepers::Keeper;
use proposals::{GroupSize, Pair, Proposal, Refusal};

/// A way by which what a text asks for reaches a keeper: through a board, or straight.
pub trait Way<T> {
    /// What the keeper that it reaches means.
    ghost meaning: { T → Meaning };

    /// That the recipient is as its maker and its calls leave it; what the way promises rests on this.
    ghost sound: { T → Type 0 };

    /// Behind a sound recipient is what a keeper means.
    ghost lawful: { (recipient : T) → sound recipient → Lawful (meaning recipient) };

    /// How many meters the group has.
    fn size(recipient: &T) -> GroupSize
        ensures { sound recipient.now → result.meters ≡ (meaning recipient.now).size };

    /// Opens a proposal.
    fn add(recipient: &mut T, proposal: Proposal) -> Result<(), Refusal>
        ensures sound { sound recipient.old → sound recipient.new }
        ensures exact { sound recipient.old → Puts (meaning recipient.old) proposal result (meaning recipient.new) };

    /// Closes the open proposal for a pair.
    fn take_off(recipient: &mut T, pair: Pair) -> Result<(), Refusal>
        ensures sound { sound recipient.old → sound recipient.new }
        ensures exact { sound recipient.old → Takes (meaning recipient.old) pair result (meaning recipient.new) };
}

/// Through a board, which settles its kept pairs with each proposal that comes or goes.
pub struct Boarded;

impl<K: Keeper> Way<Board<K>> for Boarded {
    ghost meaning = { λ board. ⟦<Board<K> as Serving>⟧.meaning board };

    ghost sound = { λ board. ⟦<Board<K> as Serving>⟧.serves board };

    ghost lawful = { λ board ok. ok.lawful };

    fn size(board: &Board<K>) -> GroupSize {
        board.size()
    }

    fn add(board: &mut Board<K>, proposal: Proposal) -> Result<(), Refusal> {
        board.propose(proposal)?;
        Ok(())
    }

    fn take_off(board: &mut Board<K>, pair: Pair) -> Result<(), Refusal> {
        board.withdraw(pair)?;
        Ok(())
    }
}

/// Straight to a keeper that has no board above it.
pub struct Straight;

impl<K: Keeper> Way<K> for Straight {
    ghost meaning = { K.Reader.meaning };

    ghost sound = { K.Reader.sound };

    ghost lawful = { K.Reader.lawful };

    fn size(keeper: &K) -> GroupSize {
        keeper.size()
    }

    fn add(keeper: &mut K, proposal: Proposal) -> Result<(), Refusal> {
        keeper.put(proposal)
    }

    fn take_off(keeper: &mut K, pair: Pair) -> Result<(), Refusal> {
        keeper.take(pair)
    }
}
