//! Runs of calls on a pairing board, over the meaning of its keeper alone: nothing here speaks of a board's code.
//! Each function stands for a theorem: its contract is the statement, and the check asks for the proof.
#![tactic(auto)]

ghost use Rattle.runs.specs.Answering.{Accepting, Reading, Refusing};
ghost use Rattle.runs.specs.Example.{Example};
ghost use Rattle.runs.specs.Law.{Law, LawOfCalls};

/// At the end of every run from a lawful meaning, the kept pairs are a pairing of the open proposals that saves at least
/// an eighth of any other, list, partner and saved agree on them, and each call kept to the alteration limit.
pub fn the_law_holds_after_every_run()
    ensures { Law }
{}

/// It holds just before and just after each call of a run, and the two counts of an accepted call are those between the two moments.
pub fn the_law_holds_around_every_call()
    ensures { LawOfCalls }
{}

/// A call that reads has exactly one answer.
pub fn reading_has_one_answer()
    ensures { Reading }
{}

/// A call that is to be refused is refused for that reason, and nothing changes.
pub fn a_refusal_changes_nothing()
    ensures { Refusing }
{}

/// A call on a lawful board is accepted just if there is no reason to refuse it.
pub fn calls_without_a_refusal_are_accepted()
    ensures { Accepting }
{}

/// A run of every kind of call over five meters, with each answer worked out.
pub fn a_small_run_goes_as_written()
    ensures { Example }
{}
