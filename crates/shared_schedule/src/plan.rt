//! What a schedule is about.

/// What a schedule is about: which bodies it carries, and the callees of each module.
#[derive(Drop)]
pub struct Plan<P> {
    pub pieces: P,
    pub callees: Vec<Vec<u32>>,
}
