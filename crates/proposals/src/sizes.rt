ghost use Rattle.std.specs.Prelude.{◌≤◌};

/// The most meters that a group has.
pub const METERS: u32 = 256;

/// How many meters a group has: 2 to 256. They are numbered from 0.
#[derive(Clone, Copy, PartialEq, Eq, Debug)]
pub struct GroupSize {
    pub(crate) meters: u32,
    ghost some: { 2 ≤ meters },
    ghost few: { meters ≤ 256 },
}
