//! What lies in a slot of the table.

/// What lies in a slot of the table: the slot of a module is `Stored`, `Away` or `Made`, that of an edge `Bare`,
/// `Copied` or `Cleared`.
#[derive(Drop)]
pub enum Slot<B> {
    /// A body that no worker has taken yet.
    Stored(B),
    /// The body is with the worker that took it.
    Away,
    /// A finished body.
    Made(B),
    /// Nothing was put on the edge yet.
    Bare,
    /// A copy of the body that was made for the callee, or none.
    Copied(Option<B>),
    /// The copy was taken.
    Cleared,
}
