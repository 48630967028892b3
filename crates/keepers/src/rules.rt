ghost use Rattle.std.specs.Prelude.{◌≡◌, ℕ};
ghost use Rattle.proposals.specs.declared.proposals.Proposal.{Proposal};
ghost use Rattle.proposals.specs.declared.pairs.Pair.{Pair};
ghost use Rattle.matching.specs.Meanings.{Meaning, bare};
ghost use Rattle.matching.specs.Keeping.{Keeps};
ghost use Rattle.keepers.specs.declared.stores.Store.{Store};
ghost use Rattle.keepers.specs.Meant.{meaning_of, InOrder, Opened, Closed};

use crate::stores::Store;
use proposals::Proposal;

/// How a keeper chooses: what becomes of a store's choice once a proposal was opened or closed in it.
pub trait Rule {
    /// That a store is as this rule leaves it.
    ghost sound: { Store → Type 0 };

    /// What a keeper means once a proposal was put, and once the one for a pair was taken.
    ghost put: { Meaning → Proposal → Meaning };

    ghost take: { Meaning → Pair → Meaning };

    /// A store in which nothing was opened yet is as the rule leaves it.
    ghost begins: { (k : Store) (size capacity : ℕ) → InOrder k → meaning_of k ≡ bare size capacity → sound k };

    /// The rule leaves a store in order.
    ghost in_order: { (k : Store) → sound k → InOrder k };

    /// The rule does what every keeper's put and take do.
    ghost keeps: { (k : Store) → sound k → Keeps put take (meaning_of k) };

    /// Chooses after a proposal was opened.
    fn after_put(store: &mut Store<'_>, proposal: Proposal)
        ensures { (k : Store) → sound k → Opened k proposal store.old → sound store.new × (meaning_of store.new ≡ put (meaning_of k) proposal) };

    /// Chooses after a proposal was closed.
    fn after_take(store: &mut Store<'_>, closed: Proposal)
        ensures { (k : Store) (pair : Pair) → sound k → Closed k pair closed store.old → sound store.new × (meaning_of store.new ≡ take (meaning_of k) pair) };
}
