//! The answers of a session over a worker's desk consist of replies in the histories.
ghost use Rattle.crack_worker_desk.specs.Histories.{AreLinesOfHistories};

use crate::desk::WorkerDesk;
use crack_session::Desk;
use crack_table::Gate;
use crack_witness::Naming;
use std::sync::Wait;

/// States what holds of the answers of each session over the desk, if its worker is gathered later, whatever is asked
/// between the session and the gathering. The answer to a statement consists of replies in the histories of the
/// partitions that have a part of the statement. Each is the reply of the plain rows at its position in the history.
/// Replies of one partition are there in the order of the statements, with no other entry of the worker between them.
/// Does nothing.
pub fn lines_stand_in_histories<'a, R: Wait, G: Gate, J: Naming>(desk: &WorkerDesk<'a, R, G, J>)
    ensures { AreLinesOfHistories ⟦<WorkerDesk<'a, R, G, J> as Desk>⟧.leads (λ d. d.table.now) (λ d. d.worker)
        J.owner desk.now }
{
    let _desk = desk;
}
