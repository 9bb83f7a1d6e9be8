//! Whether the stores of a whole system are well.

/// What stands over the stores of a whole system: the concentrator's queues, the centres' journals, and the books of concentrator
/// and centres.
pub trait Stored {
    ghost use Rattle.std.specs.Prelude.{Bool};

    /// The stores are honest, and no book has answered Device.
    ghost well: { Self → Type 0 };

    /// One of them has answered Device.
    ghost is_stopped: { Self → Bool };
}
