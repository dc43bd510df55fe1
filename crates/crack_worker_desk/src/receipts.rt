//! A worker's receipts are the answers at its desk.
ghost use Rattle.std.specs.Prelude.{◌≡◌, ℕ, List, ◌++◌, map};
ghost use Rattle.std.specs.Option.{option_map};
ghost use Rattle.crack_session.specs.Calls.{Call, Calls};
ghost use Rattle.crack_witness.specs.declared.receipt.Receipt.{Receipt};
ghost use Rattle.crack_witness.specs.Witnesses.{WorkerState};
ghost use Rattle.crack_table.specs.Asking.{AsksTable};
ghost use Rattle.crack_table.specs.Tables.{TableState};
ghost use Rattle.crack_worker_desk.specs.Leads.{table_leads, answers_in, receipted};

use crack_table::Gate;

/// States what any calls at a worker's desk with this gate add to the worker's receipts: one for each answered
/// command, in order, with its partition and its reply, and no other. A worker that keeps no receipts gains none.
/// Does nothing.
pub fn answers_are_receipts<G: Gate>(gate: &G)
    ensures { (owner : ℕ → ℕ) (table : TableState) (calls : List Call) (old new : WorkerState) →
        Calls (table_leads table (λ part. AsksTable owner table (G.may_refuse gate.now part) part)) old calls new →
        option_map (map receipted) new.receipts ≡ option_map (λ (receipts : List Receipt). map receipted receipts ++
        answers_in calls) old.receipts }
{
    let _gate = gate;
}
