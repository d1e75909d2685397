/// A book that a turn lends. All members are meanings: nothing is called.
pub trait Logged {
    ghost use Rattle.std.specs.Prelude.{List, ℕ};

    /// What the book's log is a list of.
    type Event;

    /// What stays the same from the first book on. No value of it need be made.
    type Opening;

    // The log.
    ghost events: { Self → List Self.Event };

    // The number of the seat that an event is of.
    ghost by: { Self.Event → ℕ };

    // The opening that a book with an empty log gives.
    ghost opens: { Self → Self.Opening };

    // Whether the book goes with this opening.
    ghost fits: { Self → Self.Opening → Type 0 };
}
