//! What bounds a run.

/// The budgets of a run, and where its memory lies.
#[derive(Clone, Copy)]
pub struct Limits {
    /// The most keys.
    pub keys: u64,
    /// The most bytes that calls are charged with.
    pub calls: u64,
    /// The most live blocks of the heap.
    pub blocks: u64,
    /// The first address behind the object stack.
    pub stack_end: u64,
    /// The first address of the heap.
    pub heap_first: u64,
    /// The last address of the heap.
    pub heap_last: u64,
}
