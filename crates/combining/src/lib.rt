//! Static combining: from the highest level down, every chosen pair whose meters are in no pair of a higher level is kept.
#![tactic(auto)]

ghost use Rattle.std.specs.Prelude.{◌≡◌, ℕ, ◌+◌, ◌<◌, ◌≤◌, length, IfErr, slice_index};
ghost use Rattle.matching.specs.Meanings.{kept_of};
ghost use Rattle.combining.specs.Partners.{short_row, BeginsWithPartners, at_lower, Combines};
ghost use Rattle.combining.specs.Steps.{DownTo, with_pair};

use keepers::Reader;
use proposals::{LEVELS, Layer, Pair, Proposal, Reason, Refusal};

/// Writes each meter's partner, or the meter's own number where it has none, into the first places of a row.
/// Refuses a row with fewer places than the group has meters. Leaves the rest of the row as it is.
/// A row of plain numbers and no `Option`s: that is the form in which it is asked for.
pub fn combine<R: Reader>(reader: &R, row: &mut [u32]) -> Result<(), Refusal>
    ensures exact { R.sound reader.now → Combines (R.meaning reader.now) row.old result row.new }
    ensures refused { IfErr result (λ e. (e ≡ short_row) × (row.new ≡ row.old)) }
{
    let meters = reader.size().meters() as usize;
    if row.len() < meters {
        return Err(Reason::RowTooShort.found_by(Layer::Board));
    }
    let partners = &mut row[..meters];
    free(partners);
    for level in (0..LEVELS).rev() {
        keep_level(reader, level, partners);
    }
    Ok(())
}

/// Frees every meter: a free meter is its own partner.
fn free(partners: &mut [u32])
    requires { length partners.old ≤ 256 }
    ensures { (v : ℕ) → v < length partners.new → slice_index partners.new v ≡ v }
{
    for (meter, partner) in partners.iter_mut().enumerate() {
        *partner = meter as u32;
    }
}

/// Keeps each pair that is chosen at a level and whose two meters are still free. A pair is looked at once, at its lower meter.
fn keep_level<R: Reader>(reader: &R, level: u32, partners: &mut [u32])
    requires { length partners.old ≤ 256 }
    ensures { R.sound reader.now → length partners.old ≡ (R.meaning reader.now).size → DownTo (R.meaning reader.now) (level + 1) partners.old → DownTo (R.meaning reader.now) level partners.new }
{
    let meters = partners.len() as u32;
    for meter in 0..meters {
        if let Some(mate) = reader.mate(meter, level)
            && meter < mate
            && mate < meters
        {
            keep(meter, mate, partners);
        }
    }
}

/// Keeps the pair of two meters if both are free.
fn keep(low: u32, high: u32, partners: &mut [u32])
    requires { (low < length partners.old) × (high < length partners.old) }
    ensures { partners.new ≡ with_pair partners.old low high }
{
    if partners[low as usize] == low && partners[high as usize] == high {
        partners[low as usize] = high;
        partners[high as usize] = low;
    }
}

/// The kept proposal whose lower meter is this one, read off a row that `combine` wrote; none at any other meter.
pub fn kept_at<R: Reader>(reader: &R, row: &[u32], meter: u32) -> Option<Proposal>
    ensures { R.sound reader.now → BeginsWithPartners (R.meaning reader.now) row.now → result ≡ at_lower (kept_of (R.meaning reader.now)) meter }
{
    let partner = *row.get(meter as usize)?;
    if partner <= meter {
        return None;
    }
    let saving = reader.saving(Pair::new(meter, partner).ok()?)?;
    Proposal::new(meter, partner, saving).ok()
}
