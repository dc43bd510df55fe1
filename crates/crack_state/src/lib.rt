//! The state of a partition's store, and its invariants: the cells and where each is, the steps by which rows move
//! between the pending lists, the hand and the cracker column, and what a refinement and a merge may change. The
//! hand holds the row that a carry or a pull moves. The column after many carries or pulls is defined piece by
//! piece: to a piece they are a queue, so pieces can be processed one after another. The definitions are in
//! `specs/`, over one record of plain lists; the laws that other crates cite are in `proofs/`.
#![tactic(auto)]

/// What merges have counted. Each counter stops at its greatest value.
#[derive(Clone, Copy, PartialEq, Eq, Debug)]
pub struct MergeReport {
    /// Pending insertions that were taken into the hand.
    pub insertions: u64,
    /// Doomed rows (with a pending deletion) whose cells were freed.
    pub deletions: u64,
    /// Rows that went from the hand back to the pending insertions.
    pub evicted: u64,
    /// Rows that the hand replaced on its way up.
    pub moved: u64,
    /// Rows that the hand replaced on its way down, or in its own piece.
    pub pulled: u64,
}
