ghost use Rattle.std.specs.Prelude.{◌≡◌, ◌<◌, ◌||◌, Some, None, MatchResult, ◌==◌};
ghost use Rattle.proposals.specs.Levels.{level_of};
ghost use Rattle.proposals.specs.Making.{proposal_refusal, Proposes};

use crate::levels::level;
use crate::pairs::Pair;
use crate::proposals::Proposal;
use crate::refusals::{Layer, Reason, Refusal};

impl Proposal {
    /// What fills a table before it is handed to a keeper, which reads none of it.
    pub const FILLER: Proposal = Proposal {
        low: 0,
        high: 1,
        saving: 1,
    };

    /// A proposal to pair two meters, given in either order, with what that saves.
    pub fn new(a: u32, b: u32, saving: u32) -> Result<Proposal, Refusal>
        ensures { MatchResult result (λ p. (proposal_refusal a b saving ≡ None) × Proposes p a b saving) (λ e. proposal_refusal a b saving ≡ Some e) }
    {
        let pair = Pair::new(a, b)?;
        if saving == 0 || saving > 1_048_575 {
            return Err(Reason::SavingOutOfRange.found_by(Layer::Proposal));
        }
        Ok(Proposal {
            low: pair.low,
            high: pair.high,
            saving,
        })
    }

    /// The lower meter.
    pub fn low(self) -> u32
        ensures { result ≡ self.low }
    {
        self.low
    }

    /// The higher meter.
    pub fn high(self) -> u32
        ensures { result ≡ self.high }
    {
        self.high
    }

    /// How many bytes a day the pair would save.
    pub fn saving(self) -> u32
        ensures { result ≡ self.saving }
    {
        self.saving
    }

    /// The two meters.
    pub fn pair(self) -> Pair
        ensures { (result.low ≡ self.low) × (result.high ≡ self.high) }
    {
        Pair {
            low: self.low,
            high: self.high,
        }
    }

    /// Whether a meter is one of the two.
    pub fn has(self, meter: u32) -> bool
        ensures { result ≡ (self.low == meter || self.high == meter) }
    {
        meter == self.low || meter == self.high
    }

    /// The level of the proposal's saving, 0 to 19.
    pub fn level(self) -> u32
        ensures value { result ≡ level_of 2 self.saving }
        ensures bound { result < 20 }
    {
        level(self.saving)
    }
}
