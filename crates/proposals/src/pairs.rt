ghost use Rattle.std.specs.Prelude.{◌<◌};

/// Two different meters, the lower first. Pairs are in order by the lower meter, then by the higher one.
#[derive(Clone, Copy, PartialEq, Eq, PartialOrd, Ord, Debug)]
pub struct Pair {
    pub(crate) low: u32,
    pub(crate) high: u32,
    ghost apart: { low < high },
}
