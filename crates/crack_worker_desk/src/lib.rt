//! Sessions over a table that threads share: its workers are desks, which execute the commands of sessions.
#![tactic(auto)]

pub mod desk;
pub mod histories;
pub mod receipts;

pub use desk::WorkerDesk;
pub use histories::lines_stand_in_histories;
pub use receipts::answers_are_receipts;
