ghost use Rattle.std.specs.Prelude.{◌≡◌};
ghost use Rattle.proposals.specs.Refusals.{number_of};

use std::fmt;

/// Why a call refuses. Each reason has a number, by which it is reported.
#[derive(Clone, Copy, PartialEq, Eq, Debug)]
pub enum Reason {
    /// A group size below 2 or above 256.
    SizeOutOfRange = 1,
    /// The two meters of a proposal or a pair are equal.
    EqualMeters = 2,
    /// A saving of 0 or above 1,048,575.
    SavingOutOfRange = 3,
    /// A meter's number is the group's size or more.
    MeterOutsideGroup = 4,
    /// The pair is open already.
    AlreadyOpen = 5,
    /// As many proposals are open as the keeper can hold.
    KeeperFull = 6,
    /// The pair is not open.
    NotOpen = 7,
    /// The row is shorter than what the call would write.
    RowTooShort = 8,
    /// The text has more than 32,768 bytes.
    TextTooLong = 9,
    /// The first line is not the four names, each once, ended by a line feed.
    BadNamesLine = 10,
    /// A line has no line feed at its end.
    NoLineFeed = 11,
    /// A line has not four fields.
    NotFourFields = 12,
    /// The act is neither `add` nor `off`.
    UnknownAct = 13,
    /// A meter or a saving is not written in its form.
    BadField = 14,
}

/// The layer that found a reason to refuse.
#[derive(Clone, Copy, PartialEq, Eq, Debug)]
pub enum Layer {
    Proposal,
    Keeper,
    Board,
    Text,
}

/// A refusal: its reason and the layer that found it. Each layer above passes it on as it is.
#[derive(Clone, Copy, PartialEq, Eq, Debug)]
pub struct Refusal {
    pub reason: Reason,
    pub layer: Layer,
}

impl Reason {
    /// The refusal for this reason, as a layer finds it.
    pub fn found_by(self, layer: Layer) -> Refusal
        ensures { (result.reason ≡ self) × (result.layer ≡ layer) }
    {
        Refusal {
            reason: self,
            layer,
        }
    }
}

impl Refusal {
    /// The number by which the refusal is reported, 1 to 14.
    pub fn number(self) -> u32
        ensures { result ≡ number_of self.reason }
    {
        self.reason as u32
    }
}

impl fmt::Display for Reason {
    fn fmt<W: fmt::Write>(&self, f: &mut fmt::Formatter<W>) -> fmt::Result {
        f.write_str(match self {
            Reason::SizeOutOfRange => "a group has 2 to 256 meters",
            Reason::EqualMeters => "a meter cannot be paired with itself",
            Reason::SavingOutOfRange => "a proposal saves from 1 to 1,048,575 bytes a day",
            Reason::MeterOutsideGroup => "the group has no such meter",
            Reason::AlreadyOpen => "a proposal for these two meters is open already",
            Reason::KeeperFull => "as many proposals are open as there is room for",
            Reason::NotOpen => "no proposal for these two meters is open",
            Reason::RowTooShort => "the row is too short for what would be written",
            Reason::TextTooLong => "the text is too long",
            Reason::BadNamesLine => "the first line does not name the four columns",
            Reason::NoLineFeed => "the line does not end",
            Reason::NotFourFields => "the line has not four fields",
            Reason::UnknownAct => "the act is neither add nor off",
            Reason::BadField => "a number is not written as one",
        })
    }
}

impl fmt::Display for Layer {
    fn fmt<W: fmt::Write>(&self, f: &mut fmt::Formatter<W>) -> fmt::Result {
        f.write_str(match self {
            Layer::Proposal => "proposal",
            Layer::Keeper => "keeper",
            Layer::Board => "board",
            Layer::Text => "text reader",
        })
    }
}

impl fmt::Display for Refusal {
    fn fmt<W: fmt::Write>(&self, f: &mut fmt::Formatter<W>) -> fmt::Result {
        let number = self.number();
        let Refusal { reason, layer } = self;
        write!(f, "number {number}, found by the {layer}: {reason}")
    }
}
