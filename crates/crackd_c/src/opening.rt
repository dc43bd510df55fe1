//! Opens a table whose splits are given as numbers.
ghost use Rattle.std.specs.Prelude.{◌≡◌, ◌⊎◌, All, map, None, IfOk, IfErr, OnOk};
ghost use Rattle.crack_row.specs.declared.Bound.{Bound};
ghost use Rattle.crack_core.specs.Opening.{opening_fault, MayFault};
ghost use Rattle.crack_core.specs.Steps.{fresh_table};
ghost use Rattle.crack_part.specs.Parts.{Part, table_of};
ghost use Rattle.crackd_c.specs.Calls.{bounds_at, history_from};

use crack_core::Core;
use crack_row::{Bound, BoundNumber, Limits, Refusal};
use std::alloc::Global;

/// Opens a table with these splits and limits, in a box. Refused as `Core::open_with` is, and with `OutOfMemory` if no
/// memory is found for the list of bounds or the box. O(splits).
pub fn open(alloc: Global, splits: &[u64], limits: Limits) -> Result<Box<Core>, Refusal>
    ensures opened { IfOk result (λ core. (core.value.splits ≡ bounds_at splits.now) × (core.value.limits ≡ limits)) }
    ensures fresh { IfOk result (λ core. All (λ (part : Part). table_of part ≡ fresh_table) core.value.parts) }
    ensures none { OnOk result (opening_fault (bounds_at splits.now) limits ≡ None) }
    ensures fault { IfErr result (λ e. MayFault (opening_fault (bounds_at splits.now) limits) e ⊎
        (e ≡ Refusal.OutOfMemory)) }
{
    let bounds = bounds_of(alloc, splits)?;
    let core = Core::open_with(alloc, &bounds, limits)?;
    let held = Box::new(alloc, core)?;
    Ok(held)
}

/// The limit of a history for the number that C passed, where 0 means that it has none. O(1).
pub fn history_from(number: u64) -> u64
    ensures { result ≡ history_from number }
{
    let given = if number == 0 { None } else { Some(number) };
    Limits::history_limit(given)
}

/// The bounds with these numbers, in order. Refused with `OutOfMemory` if no memory is found for the list.
fn bounds_of(alloc: Global, splits: &[u64]) -> Result<Vec<Bound>, Refusal>
    ensures ok { IfOk result (λ bounds. bounds.items ≡ bounds_at splits.now) }
    ensures err { IfErr result (λ e. e ≡ Refusal.OutOfMemory) }
{
    let mut bounds = Vec::with_capacity(alloc, splits.len())?;
    'splits: for split in splits {
        bounds.push_reserved(Bound::from_number(*split as BoundNumber));
    }
    Ok(bounds)
}
