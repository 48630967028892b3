ghost use Rattle.std.specs.Prelude.{◌≡◌, ◌<◌, length, drop};
ghost use Rattle.runs.specs.Runs.{Step};
ghost use Rattle.runs.specs.Runs.Call.{list};
ghost use Rattle.runs.specs.Law.{LawAlong};
ghost use Rattle.board.specs.Replaying.{call_of, answer_of, events_of, listing};
ghost use Rattle.board.specs.declared.replaying.Answer.TheVariants.{Counts};

use crate::boards::{Board, Serving};
use keepers::Keeper;
use proposals::{Pair, Proposal, Refusal};

/// The numbers of a row that takes every list: three for each of 128 pairs.
pub const PLACES: usize = 384;

/// A call on a board.
#[derive(Clone, Copy)]
pub enum Call {
    /// Open a proposal.
    Propose(Proposal),
    /// Close the proposal for a pair.
    Withdraw(Pair),
    /// Ask for a meter's partner.
    Partner(u32),
    /// Ask what the kept pairs save together.
    Saved,
    /// List the kept pairs in a row of so many numbers.
    List(u32),
}

/// What an accepted call answered.
#[derive(Clone, Copy)]
pub enum Answer {
    /// How many kept pairs a proposal or a withdrawal altered, and how many pairs came to the choice or went from it.
    Counts { altered: u32, came_or_went: u32 },
    /// The other meter and the saving, or none.
    Partner(Option<(u32, u32)>),
    /// What the kept pairs save together.
    Saved(u32),
    /// How many pairs there are, and the row: three numbers for each pair, and 0 after them. No `Vec`: a board has no heap.
    List { pairs: u32, row: [u32; PLACES] },
}

impl<K: Keeper> Board<K> {
    /// Makes a call, and answers what it answered.
    #[tactic(auto, using(crate::proofs::Stepping::propose_step, crate::proofs::Stepping::withdraw_step, crate::proofs::Stepping::saved_step))]
    pub fn answer(&mut self, call: Call) -> Result<Answer, Refusal>
        ensures serves { ⟦<Board<K> as Serving>⟧.serves self.old → ⟦<Board<K> as Serving>⟧.serves self.new }
        ensures step { ⟦<Board<K> as Serving>⟧.serves self.old
            → Step (⟦<Board<K> as Serving>⟧.meaning self.old) (call_of call) (answer_of result) (⟦<Board<K> as Serving>⟧.meaning self.new) }
    {
        match call {
            Call::Propose(proposal) => Ok(counted(self.propose(proposal)?)),
            Call::Withdraw(pair) => Ok(counted(self.withdraw(pair)?)),
            Call::Partner(meter) => Ok(Answer::Partner(self.partner(meter)?)),
            Call::Saved => Ok(Answer::Saved(self.saved())),
            Call::List(places) => self.listed(places),
        }
    }

    /// Lists the kept pairs in a new row, of which so many numbers may be written.
    fn listed(&self, places: u32) -> Result<Answer, Refusal>
        ensures { ⟦<Board<K> as Serving>⟧.serves self.now
            → Step (⟦<Board<K> as Serving>⟧.meaning self.now) (list places) (answer_of result) (⟦<Board<K> as Serving>⟧.meaning self.now) }
    {
        let mut row = [0; PLACES];
        let pairs = self.list_within(places, &mut row)?;
        Ok(Answer::List { pairs, row })
    }

    /// Lists the kept pairs in the first places of a row.
    fn list_within(&self, places: u32, row: &mut [u32; PLACES]) -> Result<u32, Refusal>
        ensures { ⟦<Board<K> as Serving>⟧.serves self.now
            → Step (⟦<Board<K> as Serving>⟧.meaning self.now) (list places) (listing result row.new) (⟦<Board<K> as Serving>⟧.meaning self.now) }
    {
        self.list(&mut row[..PLACES.min(places as usize)])
    }
}

/// The two counts of a proposal or a withdrawal, as an answer. No `From`, which would not say which is which.
fn counted(counts: (u32, u32)) -> Answer
    ensures { result ≡ Counts counts.0 counts.1 }
{
    let (altered, came_or_went) = counts;
    Answer::Counts {
        altered,
        came_or_went,
    }
}

/// Opens a board over a keeper and makes the calls in their order, as far as there are places for the answers.
/// Gives the board back, with the answers in their places.
pub fn replay<K: Keeper>(
    keeper: K,
    calls: &[Call],
    answers: &mut [Result<Answer, Refusal>],
) -> Board<K>
    ensures serves { K.Reader.sound keeper → ⟦<Board<K> as Serving>⟧.serves result }
    ensures law { K.Reader.sound keeper → LawAlong (K.Reader.meaning keeper) (events_of calls.now answers.new) (⟦<Board<K> as Serving>⟧.meaning result) }
    ensures rest { drop (length calls.now) answers.new ≡ drop (length calls.now) answers.old }
{
    let mut board = Board::open(keeper);
    // By index, since of what is written through a `zip` of `iter_mut` the library keeps no value.
    for i in 0..calls.len().min(answers.len()) {
        answers[i] = board.answer(calls[i]);
    }
    board
}
