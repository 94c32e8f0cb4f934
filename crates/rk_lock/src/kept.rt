//! What a value under the lock means.
ghost use Rattle.std.specs.Prelude.{ℕ, List};

/// A value that stands for a list of events, from where it began. It has no calls: its meanings are for proofs alone, and
/// no event and no origin need ever be made.
pub trait Kept: Send {
    /// What happens in one turn, as plain data.
    type Event;
    /// Where a history begins, as plain data.
    type Origin;

    /// The ticket of the turn that made an event.
    ghost ticket: { Self.Event → ℕ };

    /// Whether the value stands for the events, from the origin. Where it does, they are a history of the value.
    ghost stands: { Self → Self.Origin → List Self.Event → Type 0 };
}
