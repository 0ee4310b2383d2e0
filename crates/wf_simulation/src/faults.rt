//! What goes wrong on a network by chance.

/// What goes wrong on a network by chance, of a million, and how long things take.
#[derive(Clone, Copy)]
pub struct Faults {
    /// The longest delay of a step, in milliseconds.
    pub delay: u32,
    /// The least and the greatest number of bytes that wait in a direction of a connection.
    pub least_room: u32,
    pub most_room: u32,
    /// At each step of a direction: the connection is reset, in both directions.
    pub resets: u32,
    /// At each step of a direction: the direction is lost for ever, silently.
    pub losses: u32,
    /// At each attempt to connect: it is refused, although somebody listens.
    pub refusals: u32,
    /// At each attempt to connect: nothing answers, although somebody listens.
    pub silences: u32,
    /// At each look for a socket that is ready: one is told of that may not be.
    pub false_events: u32,
}

impl Faults {
    /// None: bytes come in pieces of any size, after up to ten milliseconds.
    pub const NONE: Faults = Faults {
        delay: 10,
        least_room: 1_024,
        most_room: 65_536,
        resets: 0,
        losses: 0,
        refusals: 0,
        silences: 0,
        false_events: 0,
    };
}
