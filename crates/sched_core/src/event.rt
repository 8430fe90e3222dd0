//! What can happen in a schedule.

/// One step of one worker, or a split or a join of workers. Modules, edges and workers are given by their numbers: `w`
/// a worker, `m` a module, `c` a caller and `i` the position of an edge in its list of callees.
#[derive(Clone, Copy, PartialEq, Eq)]
pub enum Event {
    /// The worker draws the next leaf module, or finds that there is none.
    Claim { w: u32 },
    /// The worker takes the body of a module that is owed to it.
    Take { w: u32, m: u32 },
    /// The worker takes what stands on an edge of a module that it took.
    TakeEdge { w: u32, c: u32, i: u32 },
    /// The worker puts the finished body of a module.
    PutDone { w: u32, m: u32 },
    /// The worker puts a copy of a finished body on a caller's edge.
    PutEdge { w: u32, c: u32, i: u32 },
    /// The worker reports a full edge to its caller.
    Report { w: u32, c: u32, i: u32 },
    /// The first worker starts another one.
    Split,
    /// A worker goes, and another keeps what it did.
    Join { kept: u32, gone: u32 },
}
