ghost use Rattle.std.specs.Prelude.{◌≡◌, Some, None, MatchResult};
ghost use Rattle.std.specs.Ordering.{MatchOrdering};
ghost use Rattle.proposals.specs.Making.{pair_refusal, Pairs, Before};

use crate::pairs::Pair;
use crate::refusals::{Layer, Reason, Refusal};
use std::cmp::Ordering;

impl Pair {
    /// The pair of two meters, given in either order.
    pub fn new(a: u32, b: u32) -> Result<Pair, Refusal>
        ensures { MatchResult result (λ p. (pair_refusal a b ≡ None) × Pairs p a b) (λ e. pair_refusal a b ≡ Some e) }
    {
        if a == b {
            return Err(Reason::EqualMeters.found_by(Layer::Proposal));
        }
        let low = a.min(b);
        let high = a.max(b);
        Ok(Pair { low, high })
    }

    /// The lower meter.
    pub fn low(self) -> u32
        ensures { result ≡ self.low }
    {
        self.low
    }

    /// The higher meter.
    pub fn high(self) -> u32
        ensures { result ≡ self.high }
    {
        self.high
    }

    /// Whether the pair comes before the other, is it or comes after it: by the lower meter, then by the higher one.
    /// This is the derived order, with a contract that says which it is.
    pub fn order(self, other: Pair) -> Ordering
        ensures { MatchOrdering result (Before self other) ((self.low ≡ other.low) × (self.high ≡ other.high)) (Before other self) }
    {
        self.cmp(&other)
    }
}
