// The events of the machine.

/// One step of one worker, by the worker's number.
#[derive(Clone, Copy, Debug, PartialEq, Eq)]
pub enum Event {
    /// Takes the next chunk's number.
    Draw(u32),

    /// Takes a ticket at the stripe where its chunk is to be put next.
    Ticket(u32),

    /// Checks whether its ticket is served.
    Look(u32),

    /// Takes the stripe away, to work on it.
    Lift(u32),

    /// Brings the stripe back, with the chunk's batch appended.
    Lay(u32),

    /// Lets the next ticket be served, and moves on to the next stripe.
    Leave(u32),

    /// Makes a new worker.
    Split(u32),

    /// The first worker takes over the draws and puts of the second, which then no longer exists.
    Join(u32, u32),
}
