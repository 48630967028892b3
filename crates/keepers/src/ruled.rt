ghost use Rattle.std.specs.Prelude.{◌≡◌, min, length};
ghost use Rattle.matching.specs.Meanings.{bare};
ghost use Rattle.keepers.specs.Calls.{Puts, Takes, PutsBy, TakesBy};
ghost use Rattle.keepers.specs.Meant.{meaning_of};

use crate::rules::Rule;
use crate::stores::Store;
use crate::traits::{Keeper, Reader};
use proposals::{GroupSize, Pair, Proposal, Refusal};
use std::marker::PhantomData;

/// A keeper over a lent table, that chooses by a rule.
#[derive(Drop)]
pub struct Ruled<'a, R: Rule> {
    store: Store<'a>,
    rule: PhantomData<R>,
}

impl<'a, R: Rule> Ruled<'a, R> {
    /// A keeper with no open proposal, over a table that is handed over. It can hold as many as the table, and at most 4,096.
    pub fn new(size: GroupSize, table: &'a mut [Proposal]) -> Ruled<'a, R>
        ensures means { meaning_of result.store ≡ bare size.meters (min (length table.old) 4096) }
        ensures order { R.sound result.store }
    {
        Ruled {
            store: Store::new(size, table),
            rule: PhantomData,
        }
    }
}

impl<'a, R: Rule> Reader for Ruled<'a, R> {
    ghost meaning = { λ k. meaning_of k.store };

    ghost sound = { λ k. R.sound k.store };

    ghost lawful = { λ k ok. (R.in_order k.store ok).lawful };

    fn size(&self) -> GroupSize {
        self.store.size()
    }

    fn capacity(&self) -> u32 {
        self.store.capacity()
    }

    fn open_count(&self) -> u32 {
        self.store.open_count()
    }

    fn saving(&self, pair: Pair) -> Option<u32> {
        self.store.saving(pair)
    }

    fn mate(&self, meter: u32, level: u32) -> Option<u32> {
        self.store.mate(meter, level)
    }
}

impl<'a, R: Rule> Keeper for Ruled<'a, R> {
    fn put(&mut self, proposal: Proposal) -> Result<(), Refusal>
        ensures sound { R.sound self.old.store → R.sound self.new.store }
        ensures exact { R.sound self.old.store → Puts (meaning_of self.old.store) proposal result (meaning_of self.new.store) }
        ensures rule { R.sound self.old.store → PutsBy R.put (meaning_of self.old.store) proposal result (meaning_of self.new.store) }
    {
        self.store.insert(proposal)?;
        R::after_put(&mut self.store, proposal);
        Ok(())
    }

    fn take(&mut self, pair: Pair) -> Result<(), Refusal>
        ensures sound { R.sound self.old.store → R.sound self.new.store }
        ensures exact { R.sound self.old.store → Takes (meaning_of self.old.store) pair result (meaning_of self.new.store) }
        ensures rule { R.sound self.old.store → TakesBy R.take (meaning_of self.old.store) pair result (meaning_of self.new.store) }
    {
        let closed = self.store.remove(pair)?;
        R::after_take(&mut self.store, closed);
        Ok(())
    }
}
