ghost use Rattle.std.specs.Prelude.{◌≡◌, ◌<◌, ◌≤◌, min, max, Some, None, MatchResult};
ghost use Rattle.proposals.specs.declared.refusals.Reason.TheVariants.{MeterOutsideGroup};
ghost use Rattle.proposals.specs.Making.{size_refusal};

use crate::refusals::{Layer, Reason, Refusal};
use crate::sizes::{GroupSize, METERS};

impl GroupSize {
    /// The size of a group of so many meters.
    pub fn new(meters: u32) -> Result<GroupSize, Refusal>
        ensures { MatchResult result (λ size. (size_refusal meters ≡ None) × (size.meters ≡ meters)) (λ e. size_refusal meters ≡ Some e) }
    {
        if meters < 2 || meters > METERS {
            return Err(Reason::SizeOutOfRange.found_by(Layer::Proposal));
        }
        Ok(GroupSize { meters })
    }

    /// The size nearest to a number of meters.
    pub fn nearest(meters: u32) -> GroupSize
        ensures { result.meters ≡ max 2 (min meters 256) }
    {
        let meters = meters.clamp(2, METERS);
        GroupSize { meters }
    }

    /// Refuses a meter that the group has not, as the layer that asks for it.
    pub fn admit(self, meter: u32, layer: Layer) -> Result<(), Refusal>
        ensures { MatchResult result (λ _. meter < self.meters) (λ e. (self.meters ≤ meter) × (e.reason ≡ MeterOutsideGroup) × (e.layer ≡ layer)) }
    {
        if meter >= self.meters {
            return Err(Reason::MeterOutsideGroup.found_by(layer));
        }
        Ok(())
    }

    /// How many meters there are.
    pub fn meters(self) -> u32
        ensures { result ≡ self.meters }
    {
        self.meters
    }
}
