ghost use Rattle.std.specs.Prelude.{◌<◌, ◌≤◌};

/// A proposal that two meters share one time column: the lower meter, the higher one,
/// and how many bytes a day that saves, 1 to 1,048,575.
/// No later call checks this again: there is no other proposal.
/// Three plain numbers and no `Pair` within, as every definition and contract reads them so.
#[derive(Clone, Copy, PartialEq, Eq, Debug)]
pub struct Proposal {
    pub(crate) low: u32,
    pub(crate) high: u32,
    pub(crate) saving: u32,
    ghost apart: { low < high },
    ghost some: { 1 ≤ saving },
    ghost limited: { saving ≤ 1048575 },
}
