//! Whether the receipts of each worker in each partition name rising places.
ghost use Rattle.std.specs.Prelude.{◌≡◌, List, [], ◌++◌, IfOk, None};
ghost use Rattle.std.specs.BTreeMap.{get};
ghost use Rattle.std.specs.List.{flat_map};
ghost use Rattle.std.specs.Option.{option_map};
ghost use Rattle.crack_witness.specs.declared.receipt.Receipt.{Receipt};
ghost use Rattle.crack_table.specs.Cover.{first_late};
ghost use Rattle.crack_table.specs.Coverage.{named_place, Tracks, pair_cmp, is_late_at};

use crack_witness::Receipt;
use std::alloc::{AllocError, Global};
use std::collections::BTreeMap;

/// The place, a partition and a position, of the first receipt whose position isn't above that of an earlier one of
/// its worker in its partition. `None` if there is no such receipt. O(receipts), up to a logarithm of the workers
/// and partitions that they name. Refused if no memory is found.
pub(crate) fn first_late(
    alloc: Global,
    receipts: &[&[Receipt]],
) -> Result<Option<(u32, u64)>, AllocError>
    ensures { IfOk result (λ o. o ≡ option_map named_place (first_late [] (flat_map (λ r. r.now) receipts.now))) }
{
    let mut last = BTreeMap::new(alloc);
    'lists: for list in receipts {
        let late = first_late_in(&mut last, list)?;
        if late.is_some() {
            return Ok(late);
        }
    }
    Ok(None)
}

/// The place of the first receipt of this list whose position isn't above that of an earlier one of its worker in its
/// partition, in this list or in the lists before it, which have no such receipt. `None` if there is none. `last` maps
/// each worker and partition to the position of the last receipt so far; the receipts of this list are added to it, up
/// to the one found. Refused if no memory is found. O(receipts), up to a logarithm of the pairs in `last`.
fn first_late_in(
    last: &mut BTreeMap<(u32, u32), u64>,
    list: &[Receipt],
) -> Result<Option<(u32, u64)>, AllocError>
    ensures late { IfOk result (λ o. (done : List Receipt) → Tracks (get pair_cmp last.old) done → o ≡
        option_map named_place (first_late done list.now)) }
    ensures tracks { IfOk result (λ o. (done : List Receipt) → Tracks (get pair_cmp last.old) done → o ≡ None →
        Tracks (get pair_cmp last.new) (done ++ list.now)) }
{
    'list: for receipt in list {
        let before = last.insert((receipt.worker, receipt.part), receipt.position)?;
        if is_late_at(before, receipt.position) {
            return Ok(Some((receipt.part, receipt.position)));
        }
    }
    Ok(None)
}

/// Whether `position` is at or below the last position; false if there is no last position.
fn is_late_at(last: Option<u64>, position: u64) -> bool
    ensures { result ≡ is_late_at last position }
{
    match last {
        Some(last) => position <= last,
        None => false,
    }
}
