//! What is known of a module, of an edge and of a worker.

/// Where a module stands: with no worker yet, or with the worker that is to work it, works it, or did.
#[derive(Clone, Copy, PartialEq, Eq)]
pub enum Stage {
    /// No worker owes it yet.
    Waiting,
    /// This worker is to work it.
    Owed(u32),
    /// This worker has taken its body.
    Taken(u32),
    /// This worker has put its finished body.
    Done(u32),
}

/// What stands on an edge from a callee to a caller.
#[derive(Clone, Copy, PartialEq, Eq)]
pub enum Fill {
    /// Nothing was put on it yet.
    Empty,
    /// The callee's copy stands on it.
    Full,
    /// The caller's worker has taken the copy.
    Emptied,
}

/// An edge: what stands on it, and whether it was reported to the caller.
#[derive(Clone, Copy, PartialEq, Eq)]
pub struct Edge {
    pub fill: Fill,
    pub reported: bool,
}

/// A worker: whether it has drawn past the leaves, and whether it has gone.
#[derive(Clone, Copy, PartialEq, Eq)]
pub struct Worker {
    pub passed: bool,
    pub gone: bool,
}
