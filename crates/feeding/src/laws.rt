//! A function that stands for a theorem: its contract is the statement, and the check asks for the proof.
ghost use Rattle.feeding.specs.Texts.{FedAsWritten};

/// A text that is fed to its end was written out, line for line, from what was done; and a text that was written out
/// is stopped by no refusal of the text's own.
#[tactic(auto, using(crate::proofs::Spelling::fed_as_written))]
pub fn a_text_is_fed_as_it_was_written()
    ensures { FedAsWritten }
{}
