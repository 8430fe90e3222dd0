//! What a schedule carries.

ghost use Rattle.std.specs.Prelude.{ℕ, List, Option};

/// The bodies that a schedule carries. The members say, for a value of the type, what the lists of callees are, and, for
/// the number of a module, which bodies may be given to the worker that comes to the module, which ones its work makes, which
/// copies of such a body (or none) stand on the edges to the module's callers, and what is finished: what stays of that body
/// once the copies are made.
pub trait Pieces {
    /// The body of a module.
    type Body;

    ghost lists: { Self → List (List ℕ) → Type 0 };

    ghost first: { Self → ℕ → Self.Body → Type 0 };

    ghost made: { Self → ℕ → Self.Body → Type 0 };

    ghost finished: { Self → ℕ → Self.Body → Type 0 };

    ghost copied: { Self → ℕ → Option Self.Body → Type 0 };
}
