//! How far a pass of the collector is.

/// The next work of a pass.
#[derive(Clone, Copy)]
pub enum Stage {
    /// No pass runs.
    Resting,
    /// Files are visited, and scanned where they were marked.
    Marking,
    /// Files are swept: emptied where they were not marked.
    Sweeping,
}

/// The progress of a pass. It walks over the files by rising number, up to those that are newer
/// than its begin: once to visit them, and once to sweep them.
#[derive(Clone, Copy)]
pub struct PassProgress {
    pub stage: Stage,
    /// Files below this number were visited.
    pub visited: u64,
    /// Files below this number were swept.
    pub swept: u64,
    /// How many files were visited, scanned and swept since the pass began.
    pub looked: u64,
    /// How many sockets that were garbage when the pass began are freed.
    pub reclaimed: u64,
}
