ghost use Rattle.std.specs.Prelude.{◌<◌};

/// A meter at a level.
#[derive(Clone, Copy)]
pub(crate) struct Place {
    pub(crate) meter: u32,
    pub(crate) level: u32,
    ghost low: { level < 20 },
}
