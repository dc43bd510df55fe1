//! Inserting the row of a record.
ghost use Rattle.std.specs.Prelude.{◌≡◌, ◌+◌, List, Some, Ok, Err, is_ok, IfErr, OnOk, if◌then◌else◌};
ghost use Rattle.crack_row.specs.declared.command.Command.TheVariants.{Insert};
ghost use Rattle.crack_plain.specs.Plain.{PlainView};
ghost use Rattle.crack_core.specs.Routes.{route};
ghost use Rattle.crack_core.specs.Steps.{IsOutcomeAt};
ghost use Rattle.crack_row.specs.declared.command.Reply.{Reply};
ghost use Rattle.crack_csv.specs.Asked.{insertion};
ghost use Rattle.crack_csv.specs.Loads.{tables_with_row};

use crate::record::NewRow;
use crack_core::route;
use crack_row::{Command, Policy, Refusal};
use crack_session::Desk;

/// Inserts a row into the partition of its key, by one command under this policy. Refused as `Desk::ask` is.
pub(crate) fn insert_row<D: Desk>(desk: &mut D, policy: Policy, row: NewRow) -> Result<(), Refusal>
    ensures inserted { OnOk result ((tables : List PlainView) → D.tables desk.old ≡ Some tables →
        D.tables desk.new ≡ Some (tables_with_row (D.bounds desk.old) (D.splits desk.old) tables row)) }
    ensures kept { IfErr result (λ _. (tables : List PlainView) → D.tables desk.old ≡ Some tables →
        D.tables desk.new ≡ Some tables) }
    ensures refused { IfErr result (λ e. (tables : List PlainView) → D.tables desk.old ≡ Some tables →
        IsOutcomeAt (D.bounds desk.old) (D.splits desk.old) tables (route (D.splits desk.old) row.key.0)
        (Insert row.key row.payload) (Err e)) }
    ensures splits { D.splits desk.new ≡ D.splits desk.old }
    ensures bounds { D.bounds desk.new ≡ D.bounds desk.old }
    ensures accepted { D.accepted desk.new ≡ (if is_ok result then D.accepted desk.old + 1 else D.accepted desk.old) }
    ensures asks { OnOk result ((reply : Reply) × D.leads desk.old (insertion (D.splits desk.old) policy row
        (Ok reply)) desk.new) }
    ensures asks_in_vain { IfErr result (λ e. D.leads desk.old (insertion (D.splits desk.old) policy row
        (Err e)) desk.new) }
{
    let part = route(desk.splits(), row.key);
    let command = Command::Insert {
        key: row.key,
        payload: row.payload,
    };
    match desk.ask(part, command, policy) {
        Ok(_) => Ok(()),
        Err(refusal) => Err(refusal),
    }
}
