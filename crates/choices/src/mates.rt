ghost use Rattle.std.specs.Prelude.{◌≡◌, ℕ, ◌<◌, ◌≤◌, ◌⊎◌, slice_index};
ghost use Rattle.matching.specs.Lists.{first_of};
ghost use Rattle.choices.specs.Mates.{entry, mate_shown, free_in, both_free, mated, offered, written, joined, joined_if_free, considered, parted, parted_if_mated, cleared, Holds, alone};
ghost use Rattle.choices.specs.Showing.{ChoosesInTurn};

use proposals::{LEVELS, METERS, Proposal};
use std::array;

/// A choice: for each level and each meter the mate that is chosen for it there.
#[derive(Drop)]
pub struct Mates {
    /// A row for each level: each meter's mate there, or its own number where it has none.
    /// No `Option`s, since `Some` of the meter itself could stand among them, and each read would have to rule that out.
    mates: [[u8; METERS as usize]; LEVELS as usize],
}

/// A row in which no meter has a mate.
fn own_numbers() -> [u8; METERS as usize]
    ensures { (v : ℕ) → v < 256 → slice_index result v ≡ v }
{
    array::from_fn(|meter| meter as u8)
}

impl Mates {
    /// No meter has a mate.
    pub fn new() -> Mates
        ensures { Holds result alone }
    {
        Mates {
            mates: [own_numbers(); LEVELS as usize],
        }
    }

    /// The mate of a meter at a level; none outside the group or the levels.
    pub fn mate(&self, meter: u32, level: u32) -> Option<u32>
        ensures { result ≡ mate_shown (entry self.now) meter level }
    {
        let row = self.mates.get(level as usize)?;
        let mate = u32::from(*row.get(meter as usize)?);
        (mate != meter).then_some(mate)
    }

    /// Whether a meter has no mate at a level.
    pub fn is_free(&self, meter: u32, level: u32) -> bool
        ensures { result ≡ free_in (entry self.now) meter level }
    {
        self.mate(meter, level).is_none()
    }

    /// Whether both meters of a proposal are free at its level.
    pub fn are_free(&self, proposal: Proposal) -> bool
        ensures { result ≡ both_free (entry self.now) proposal }
    {
        let level = proposal.level();
        self.is_free(proposal.low(), level) && self.is_free(proposal.high(), level)
    }

    /// Makes the meters of a proposal mates at its level, if both are free there.
    pub fn join_if_free(&mut self, proposal: Proposal)
        ensures joined { proposal.high < 256 → Holds self.new (joined_if_free (entry self.old) proposal) }
        ensures outside { 256 ≤ proposal.high → self.new ≡ self.old }
    {
        if self.are_free(proposal) {
            self.join(proposal.low(), proposal.high(), proposal.level());
        }
    }

    /// Parts the meters of a proposal at its level, if they are mates there. Answers whether they were.
    pub fn part_if_mates(&mut self, proposal: Proposal) -> bool
        ensures parted { proposal.high < 256 → (result ≡ mated (entry self.old) proposal) × Holds self.new (parted_if_mated (entry self.old) proposal) }
        ensures outside { 256 ≤ proposal.high → self.new ≡ self.old }
    {
        let level = proposal.level();
        let were_mates = self.mate(proposal.low(), level) == Some(proposal.high());
        if were_mates {
            self.part(proposal.low(), proposal.high(), level);
        }
        were_mates
    }

    /// Whether a proposal is of the level, has the meter, and both its meters are free.
    fn offers(&self, proposal: Proposal, meter: u32, level: u32) -> bool
        ensures { result ≡ offered (entry self.now) level meter proposal }
    {
        proposal.has(meter) && proposal.level() == level && self.are_free(proposal)
    }

    /// The first proposal that offers to join a meter at a level.
    pub fn first_offer(&self, opened: &[Proposal], meter: u32, level: u32) -> Option<Proposal>
        ensures { result ≡ first_of (offered (entry self.now) level meter) opened.now }
    {
        opened
            .iter()
            .copied()
            .find(|proposal| self.offers(*proposal, meter, level))
    }

    /// Leaves every meter without a mate at a level.
    pub fn clear(&mut self, level: u32)
        ensures cleared { level < 20 → Holds self.new (cleared (entry self.old) level) }
        ensures outside { 20 ≤ level → self.new ≡ self.old }
    {
        if level < LEVELS {
            self.mates[level as usize] = own_numbers();
        }
    }

    /// Goes through proposals in their order, and joins the meters of each one of a level that finds both free there.
    #[tactic(auto, using(crate::proofs::Turns::turn_end))]
    pub fn choose_in_turn(&mut self, opened: &[Proposal], level: u32)
        ensures { ChoosesInTurn (entry self.old) opened.now level (entry self.new) }
    {
        for proposal in opened {
            self.consider(*proposal, level);
        }
    }

    /// Joins the meters of a proposal if it is of the level and finds both free there.
    fn consider(&mut self, proposal: Proposal, level: u32)
        ensures { proposal.high < 256 → Holds self.new (considered (entry self.old) level proposal) }
    {
        if proposal.level() == level {
            self.join_if_free(proposal);
        }
    }

    // `join` and `part` take plain numbers: a type with their bounds would ask more of callers. They stay two functions,
    // since what each writes is said in two lines.

    /// Makes each of two meters the other's mate at a level.
    pub fn join(&mut self, a: u32, b: u32, level: u32)
        ensures joined { level < 20 → a < 256 → b < 256 → Holds self.new (joined (entry self.old) level a b) }
        ensures outside { (20 ≤ level) ⊎ ((256 ≤ a) ⊎ (256 ≤ b)) → self.new ≡ self.old }
    {
        if a < METERS && b < METERS {
            self.set(a, level, b);
            self.set(b, level, a);
        }
    }

    /// Leaves two meters without a mate at a level.
    pub fn part(&mut self, a: u32, b: u32, level: u32)
        ensures parted { level < 20 → a < 256 → b < 256 → Holds self.new (parted (entry self.old) level a b) }
        ensures outside { (20 ≤ level) ⊎ ((256 ≤ a) ⊎ (256 ≤ b)) → self.new ≡ self.old }
    {
        if a < METERS && b < METERS {
            self.set(a, level, a);
            self.set(b, level, b);
        }
    }

    /// Writes the mate of a meter at a level.
    fn set(&mut self, meter: u32, level: u32, mate: u32)
        requires { (meter < 256) × (mate < 256) }
        ensures written { level < 20 → Holds self.new (written (entry self.old) level meter mate) }
        ensures outside { 20 ≤ level → self.new ≡ self.old }
    {
        if level < LEVELS {
            let row = &mut self.mates[level as usize];
            row[meter as usize] = mate as u8;
        }
    }
}
