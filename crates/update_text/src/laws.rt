//! Each function stands for a theorem: its contract is the statement, and the check asks for the proof.
ghost use Rattle.update_text.specs.Cuts.{CutsAndJoins};
ghost use Rattle.update_text.specs.Names.{OnePlacing};
ghost use Rattle.update_text.specs.Orders.{OneAnswer};
ghost use Rattle.update_text.specs.Writing.{ReadsBack, WrittenAndRead};

/// The parts of a text are free of the mark and make up the text again, and parts that are joined are cut apart again.
#[tactic(auto, using(crate::proofs::Joining::joined_cut, crate::proofs::Joining::free_cut, crate::proofs::Joining::cut_joined))]
pub fn cutting_and_joining_undo_each_other()
    ensures { CutsAndJoins }
{}

/// The names line places the four columns, and in one way only.
#[tactic(auto, using(crate::proofs::Naming::one_placing))]
pub fn a_names_line_places_the_columns()
    ensures { OnePlacing }
{}

/// A line asks for one thing, or has one flaw, at one byte.
#[tactic(auto, using(crate::proofs::Answering::one_answer))]
pub fn a_line_has_one_answer()
    ensures { OneAnswer }
{}

/// What is written out by any placing of the columns reads back as what it was.
pub fn a_written_line_reads_back()
    ensures { ReadsBack }
{}

/// A list of orders that is written out reads back as that list, and every text in form was written so.
#[tactic(auto, using(crate::proofs::Spelling::written_and_read))]
pub fn a_text_in_form_is_a_written_list()
    ensures { WrittenAndRead }
{}
