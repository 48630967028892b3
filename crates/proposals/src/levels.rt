ghost use Rattle.std.specs.Prelude.{◌≡◌, ◌<◌};
ghost use Rattle.proposals.specs.Levels.{level_of};

/// How many levels there are: they run from 0 to 19. The calls take them as plain numbers, since a type with this bound
/// would ask more of callers; what a call promises of a level is then under the premise that it is one.
pub const LEVELS: u32 = 20;

/// The level of a saving: the l of 0 to 19 with 2^l ≤ saving < 2^(l + 1).
/// A number that is no saving gets the nearest level, 0 or 19.
#[tactic(auto, using(crate::proofs::Ladder::level_of_checked_log))]
pub fn level(saving: u32) -> u32
    ensures value { result ≡ level_of 2 saving }
    ensures bound { result < 20 }
{
    saving.checked_ilog2().unwrap_or(0).min(LEVELS - 1)
}
