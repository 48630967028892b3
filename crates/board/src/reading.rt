ghost use Rattle.std.specs.Prelude.{◌≡◌, ◌+◌, ◌*◌, ◌≤◌, ◌∷◌, ◌++◌, length, take, drop, IfErr};
ghost use Rattle.proposals.specs.declared.refusals.Reason.TheVariants.{RowTooShort};
ghost use Rattle.matching.specs.Matching.{total};
ghost use Rattle.matching.specs.Canonical.{partner_in, listing};
ghost use Rattle.matching.specs.Meanings.{kept_of};
ghost use Rattle.runs.specs.Runs.{found};
ghost use Rattle.board.specs.Reading.{partner_of, saving_between, count_of, listed_in, end_at};

use crate::boards::{Board, Serving};
use keepers::Reader;
use proposals::{GroupSize, Layer, METERS, Pair, Reason, Refusal};

impl<R: Reader> Board<R> {
    /// How many meters the group has.
    pub fn size(&self) -> GroupSize
        ensures { R.sound self.now.keeper → result.meters ≡ (⟦<Board<R> as Serving>⟧.meaning self.now).size }
    {
        self.keeper.size()
    }

    /// The other meter and the saving of a meter's kept pair, or none. Refuses a meter outside the group.
    pub fn partner(&self, meter: u32) -> Result<Option<(u32, u32)>, Refusal>
        ensures { ⟦<Board<R> as Serving>⟧.serves self.now → result ≡ partner_of (⟦<Board<R> as Serving>⟧.meaning self.now) meter }
    {
        self.size().admit(meter, Layer::Board)?;
        Ok(self.kept_pair(meter))
    }

    /// The other meter and the saving of a meter's kept pair, or none.
    fn kept_pair(&self, meter: u32) -> Option<(u32, u32)>
        ensures { ⟦<Board<R> as Serving>⟧.serves self.now → result ≡ partner_in (kept_of (⟦<Board<R> as Serving>⟧.meaning self.now)) meter }
    {
        let other = self.kept.partner(meter)?;
        let saving = self.saving(meter, other)?;
        Some((other, saving))
    }

    /// What the open proposal for two meters saves, if there is one.
    fn saving(&self, a: u32, b: u32) -> Option<u32>
        ensures { R.sound self.now.keeper → result ≡ saving_between (⟦<Board<R> as Serving>⟧.meaning self.now) a b }
    {
        self.keeper.saving(Pair::new(a, b).ok()?)
    }

    /// The higher meter and the saving of the kept pair of which the meter is the lower one, if there is one.
    fn higher_end(&self, meter: u32) -> Option<(u32, u32)>
        ensures { ⟦<Board<R> as Serving>⟧.serves self.now → result ≡ end_at (kept_of (⟦<Board<R> as Serving>⟧.meaning self.now)) meter }
    {
        self.kept_pair(meter).filter(|(other, _)| meter < *other)
    }

    /// What the kept pairs save together.
    pub fn saved(&self) -> u32
        ensures { ⟦<Board<R> as Serving>⟧.serves self.now → (result ≡ total (kept_of (⟦<Board<R> as Serving>⟧.meaning self.now))) × (result ≤ 134217600) }
    {
        let mut sum = 0u32;
        for meter in 0..METERS {
            if let Some((_, saving)) = self.higher_end(meter) {
                sum = sum.saturating_add(saving);
            }
        }
        sum
    }

    /// How many pairs are kept.
    fn count(&self) -> u32
        ensures bound { result ≤ 256 }
        ensures value { ⟦<Board<R> as Serving>⟧.serves self.now → result ≡ length (kept_of (⟦<Board<R> as Serving>⟧.meaning self.now)) }
    {
        let mut count = 0;
        for meter in 0..METERS {
            count += u32::from(self.higher_end(meter).is_some());
        }
        count
    }

    /// Writes lower meter, higher meter and saving of each kept pair into the row, by rising lower meter, and answers how many pairs there are.
    /// Refuses a row with fewer places than that takes. Leaves the rest of the row as it is.
    /// The row is lent, and the count stands beside it: a board has no heap.
    pub fn list(&self, row: &mut [u32]) -> Result<u32, Refusal>
        ensures answer { ⟦<Board<R> as Serving>⟧.serves self.now → result ≡ count_of (⟦<Board<R> as Serving>⟧.meaning self.now) (length row.old) }
        ensures written { ⟦<Board<R> as Serving>⟧.serves self.now → row.new ≡ listed_in (⟦<Board<R> as Serving>⟧.meaning self.now) row.old }
        ensures refused { IfErr result (λ e. (e ≡ found RowTooShort) × (row.new ≡ row.old)) }
    {
        let count = self.count();
        if row.len() < 3 * count as usize {
            return Err(Reason::RowTooShort.found_by(Layer::Board));
        }
        self.write(row);
        Ok(count)
    }

    /// Writes the kept pairs into the row, as far as it has places.
    fn write(&self, row: &mut [u32])
        ensures { ⟦<Board<R> as Serving>⟧.serves self.now → 3 * length (kept_of (⟦<Board<R> as Serving>⟧.meaning self.now)) ≤ length row.old
            → row.new ≡ listing (kept_of (⟦<Board<R> as Serving>⟧.meaning self.now)) ++ drop (3 * length (kept_of (⟦<Board<R> as Serving>⟧.meaning self.now))) row.old }
    {
        // By place, since of what is written through `chunks_exact_mut` the library keeps no value.
        let mut at = 0;
        for low in 0..METERS {
            if let Some((high, saving)) = self.higher_end(low) {
                if row.len() - at >= 3 {
                    write_pair(row, at, low, high, saving);
                    at += 3;
                }
            }
        }
    }
}

/// Writes a pair at a place of a row.
fn write_pair(row: &mut [u32], at: usize, low: u32, high: u32, saving: u32)
    requires { at + 3 ≤ length row.old }
    ensures { row.new ≡ take at row.old ++ low ∷ (high ∷ (saving ∷ drop (at + 3) row.old)) }
{
    row[at..at + 3].copy_from_slice(&[low, high, saving]);
}
