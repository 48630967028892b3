ghost use Rattle.matching.specs.Rules.{ordered_put, ordered_take, ByOrder};
ghost use Rattle.keepers.specs.Meant.{meaning_of, ChosenInOrder};
ghost use Rattle.std.proofs.Common.{sym, refl, subst};
ghost use Rattle.matching.proofs.Ordered.{ordered_keeps};

use crate::ruled::Ruled;
use crate::rules::Rule;
use crate::stores::Store;
use proposals::Proposal;

/// The rule of the ordered keeper.
#[derive(Drop)]
pub struct InTurn;

/// The ordered keeper: at each level it goes through the open proposals by lower, then higher meter,
/// and chooses each whose two meters are still free. So its choice depends on the open proposals alone.
pub type Ordered<'a> = Ruled<'a, InTurn>;

impl Rule for InTurn {
    ghost sound = { ChosenInOrder };

    ghost put = { ordered_put };

    ghost take = { ordered_take };

    ghost begins = { λ k size capacity ok is. record { order = ok; rule = subst ByOrder (sym is) refl } };

    ghost in_order = { λ k ok. ok.order };

    ghost keeps = { λ k ok. ordered_keeps (meaning_of k) ok.order.lawful ok.rule };

    fn after_put(store: &mut Store<'_>, proposal: Proposal) {
        store.rechoose(proposal.level());
    }

    fn after_take(store: &mut Store<'_>, closed: Proposal) {
        store.rechoose(closed.level());
    }
}
