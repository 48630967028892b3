//! A morning of one group of meters, which `tour` and `morning` tell.
#![tactic(auto)]

/// How many meters the group of the story has.
pub const METERS: u32 = 6;

/// How many proposals can be open in the story.
pub const ROOM: usize = 5;

/// What comes in during the morning.
pub enum Event {
    /// A scout fills in the form of a proposal.
    File { a: u32, b: u32, saving: u32 },
    /// A scout lapses a proposal.
    Lapse { a: u32, b: u32 },
    /// A crew asks for the partner of a meter.
    Ask { meter: u32 },
    /// A clerk wants the pairs in a row of so many numbers.
    Print { places: u32 },
}

/// The morning, in its order.
pub const EVENTS: [Event; 19] = [
    Event::File {
        a: 0,
        b: 1,
        saving: 40,
    },
    Event::File {
        a: 2,
        b: 1,
        saving: 70,
    },
    Event::File {
        a: 2,
        b: 3,
        saving: 300,
    },
    Event::File {
        a: 3,
        b: 4,
        saving: 260,
    },
    Event::File {
        a: 4,
        b: 4,
        saving: 12,
    },
    Event::File {
        a: 4,
        b: 5,
        saving: 0,
    },
    Event::File {
        a: 4,
        b: 6,
        saving: 12,
    },
    Event::File {
        a: 1,
        b: 0,
        saving: 41,
    },
    Event::File {
        a: 4,
        b: 5,
        saving: 12,
    },
    Event::File {
        a: 0,
        b: 5,
        saving: 900,
    },
    Event::Ask { meter: 4 },
    Event::Ask { meter: 6 },
    Event::Print { places: 6 },
    Event::Lapse { a: 2, b: 3 },
    Event::Lapse { a: 2, b: 3 },
    Event::File {
        a: 0,
        b: 5,
        saving: 900,
    },
    Event::Print { places: 9 },
    Event::Ask { meter: 3 },
    Event::Lapse { a: 5, b: 0 },
];
