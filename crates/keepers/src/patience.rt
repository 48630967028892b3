ghost use Rattle.matching.specs.Rules.{patient_put, patient_take};
ghost use Rattle.keepers.specs.Meant.{meaning_of, InOrder};
ghost use Rattle.matching.proofs.Patient.{patient_keeps};

use crate::ruled::Ruled;
use crate::rules::Rule;
use crate::stores::Store;
use proposals::Proposal;

/// The rule of the patient keeper.
#[derive(Drop)]
pub struct Patience;

/// The patient keeper: it chooses a new proposal if neither meter has a mate at that level,
/// and gives a chosen one up only when that one is taken.
pub type Patient<'a> = Ruled<'a, Patience>;

impl Rule for Patience {
    ghost sound = { InOrder };

    ghost put = { patient_put };

    ghost take = { patient_take };

    ghost begins = { λ k size capacity ok is. ok };

    ghost in_order = { λ k ok. ok };

    ghost keeps = { λ k ok. patient_keeps (meaning_of k) ok.lawful };

    fn after_put(store: &mut Store<'_>, proposal: Proposal) {
        store.choice.join_if_free(proposal);
    }

    fn after_take(store: &mut Store<'_>, closed: Proposal) {
        if store.choice.part_if_mates(closed) {
            let level = closed.level();
            store.rejoin(closed.low(), level);
            store.rejoin(closed.high(), level);
        }
    }
}
