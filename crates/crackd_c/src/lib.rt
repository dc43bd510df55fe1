//! The C interface of a table with one thread: one call at a time on a handle. Each call returns a status: `ANSWERED`,
//! the number of its refusal, or, if the call wasn't made, a number above 100 (see `status`). These are `CLOSED` if
//! the handle holds no table, `LENGTHS_DIFFER` if a call's lists differ in length, and `NO_SUCH_POLICY` if a number is
//! no policy's. What a call writes through references is written only if the status is `ANSWERED`. A call whose name
//! ends in `_many` stops at the first refusal; it also writes the results before a refusal, and sets `done` to how
//! many these are.
#![tactic(auto)]

ghost use Rattle.std.specs.Prelude.{◌≡◌, true, false, MatchOption, length, [], ◌∷◌};
ghost use Rattle.crack_core.specs.Asking.{Inserts, Deletes, Updates, CountsRange, Sums};
ghost use Rattle.crack_core.specs.Bulk.{OverKeys, of_halves, flag, row_number};
ghost use Rattle.crack_core.specs.Bulk.{InsertsAt, DeletesAt, UpdatesAt, CountsAt, SumsAt};
ghost use Rattle.crack_core.specs.Listing.{Selects};
ghost use Rattle.crack_core.specs.Steps.{accepted_by};
ghost use Rattle.crackd_c.specs.Calls.{OnTable, OnLists, ByPolicy, ComesOut, GoesThrough, Shows, CheckpointsOne};
ghost use Rattle.crackd_c.specs.Calls.{OpensHandle, history_from};

pub mod handle;
pub mod opening;
mod parts;
pub mod picture;
pub mod status;

use crack_row::{Key, Limits, Payload, RowNo, Serial, Upkeep};
use handle::TableHandle;
use picture::LayoutTotals;
use status::{
    ALREADY_OPEN, ANSWERED, CLOSED, LENGTHS_DIFFER, NO_SUCH_POLICY, close_list, flag, policy_of,
};
use std::alloc::Global;

/// Opens a table with these splits, and with these limits for each partition, in the handle. If `history` is 0, there
/// is no limit of a history. A partition makes a checkpoint if a command finds its history full, and frees the cells of
/// deleted rows if one finds no free cell.
/// Returns `ALREADY_OPEN` if the handle already holds a table. Refused as `opening::open` is. The handle is unchanged
/// unless the call is answered. O(splits).
#[unsafe(no_mangle)]
pub extern "C" fn crackd_open(
    alloc: Global,
    handle: &mut TableHandle,
    splits: &[u64],
    history: u64,
    cells: u64,
    life: u64,
) -> u32
    ensures open { handle.old.is_open ≡ true → (result ≡ ALREADY_OPEN) × (handle.new ≡ handle.old) }
    ensures opens { handle.old.is_open ≡ false → OpensHandle handle.old handle.new splits.now
        (record { history = history_from history; cells = cells; life = life; upkeep = Upkeep.Automatic }) result }
{
    if handle.is_open() {
        return ALREADY_OPEN;
    }
    let limits = Limits {
        history: opening::history_from(history),
        cells,
        life,
        upkeep: Upkeep::Automatic,
    };
    match opening::open(alloc, splits, limits) {
        Ok(core) => {
            *handle = TableHandle::of(core);
            ANSWERED
        }
        Err(refusal) => refusal.code(),
    }
}

/// Frees the table of the handle, which then holds none. Returns `CLOSED` if it held none. Costs what freeing the
/// table's memory does.
#[unsafe(no_mangle)]
pub extern "C" fn crackd_close(alloc: Global, handle: &mut TableHandle) -> u32
    ensures closed { handle.old.is_open ≡ false → (result ≡ CLOSED) × (handle.new ≡ handle.old) }
    ensures closes { handle.old.is_open ≡ true → (result ≡ 0) × (handle.new.is_open ≡ false) }
{
    if !handle.is_open() {
        return CLOSED;
    }
    drop(handle.take(alloc));
    ANSWERED
}

/// Inserts a row, and writes its row number to `part` and `serial`. Refused as `Core::insert` is, at the same cost.
#[unsafe(no_mangle)]
pub extern "C" fn crackd_insert(
    handle: &mut TableHandle,
    key: u64,
    payload: i64,
    part: &mut u32,
    serial: &mut u64,
) -> u32
    ensures inserts { OnTable handle.old handle.new result ((part.new ≡ part.old) × (serial.new ≡ serial.old)) (ComesOut
        (λ limits splits. Inserts limits splits (record { 0 = key }) (record { 0 = payload })) (λ row. (part.new ≡
        row.part) × (serial.new ≡ row.serial.0))) }
{
    if !handle.is_open() {
        return CLOSED;
    }
    match handle
        .core()
        .insert(Key::from_number(key), Payload::from_number(payload))
    {
        Ok(row) => {
            *part = row.part;
            *serial = row.serial.0;
            ANSWERED
        }
        Err(refusal) => refusal.code(),
    }
}

/// Deletes the row with this partition and serial. Writes 1 to `gone` if the row existed, and also its key and
/// payload; else writes 0 to `gone`, and neither. Refused as `Core::delete` is, at the same cost.
#[unsafe(no_mangle)]
pub extern "C" fn crackd_delete(
    handle: &mut TableHandle,
    part: u32,
    serial: u64,
    gone: &mut u8,
    key: &mut u64,
    payload: &mut i64,
) -> u32
    ensures deletes { OnTable handle.old handle.new result ((gone.new ≡ gone.old) × (key.new ≡ key.old) × (payload.new ≡
        payload.old)) (ComesOut (λ limits splits. Deletes limits splits (row_number part serial)) (λ went. MatchOption
        went ((gone.new ≡ 0) × (key.new ≡ key.old) × (payload.new ≡ payload.old)) (λ row. (gone.new ≡ 1) × (key.new ≡
        row.key.0) × (payload.new ≡ row.payload.0)))) }
{
    if !handle.is_open() {
        return CLOSED;
    }
    let row = RowNo {
        part,
        serial: Serial(serial),
    };
    match handle.core().delete(row) {
        Ok(Some(went)) => {
            *gone = 1;
            *key = went.key.number();
            *payload = went.payload.number();
            ANSWERED
        }
        Ok(None) => {
            *gone = 0;
            ANSWERED
        }
        Err(refusal) => refusal.code(),
    }
}

/// Replaces the key and the payload of the row with this partition and serial, and writes 1 to `found` if the row
/// exists, else 0. Refused as `Core::update` is, at the same cost.
#[unsafe(no_mangle)]
pub extern "C" fn crackd_update(
    handle: &mut TableHandle,
    part: u32,
    serial: u64,
    key: u64,
    payload: i64,
    found: &mut u8,
) -> u32
    ensures updates { OnTable handle.old handle.new result (found.new ≡ found.old) (ComesOut (λ limits splits. Updates
        limits splits (row_number part serial) (record { 0 = key }) (record { 0 = payload })) (λ is. found.new ≡ flag
        is)) }
{
    if !handle.is_open() {
        return CLOSED;
    }
    let row = RowNo {
        part,
        serial: Serial(serial),
    };
    match handle
        .core()
        .update(row, Key::from_number(key), Payload::from_number(payload))
    {
        Ok(is_there) => {
            *found = flag(is_there);
            ANSWERED
        }
        Err(refusal) => refusal.code(),
    }
}

/// Counts the rows whose keys are `first` to `last`, both included, by the policy with this number (`policy_of`), and
/// writes the result to `count`. Refused as `Core::count_keys` is, at the same cost.
#[unsafe(no_mangle)]
pub extern "C" fn crackd_count(
    handle: &mut TableHandle,
    policy: u32,
    first: u64,
    last: u64,
    count: &mut u64,
) -> u32
    ensures counts { OnTable handle.old handle.new result (count.new ≡ count.old) (ByPolicy policy (λ policy. ComesOut
        (λ limits splits. OverKeys (CountsRange limits splits policy) first last) (λ rows. count.new ≡ rows))) }
{
    if !handle.is_open() {
        return CLOSED;
    }
    let Some(policy) = policy_of(policy) else {
        return NO_SUCH_POLICY;
    };
    match handle.core().count_keys(first, last, policy) {
        Ok(rows) => {
            *count = rows;
            ANSWERED
        }
        Err(refusal) => refusal.code(),
    }
}

/// Sums the payloads of the rows whose keys are `first` to `last`, both included, by the policy with this number.
/// Writes the low 64 bits of the sum to `low`, and the bits above them to `high`. Refused as `Core::sum_keys` is, at
/// the same cost.
#[unsafe(no_mangle)]
pub extern "C" fn crackd_sum(
    handle: &mut TableHandle,
    policy: u32,
    first: u64,
    last: u64,
    low: &mut u64,
    high: &mut i64,
) -> u32
    ensures sums { OnTable handle.old handle.new result ((low.new ≡ low.old) × (high.new ≡ high.old)) (ByPolicy policy
        (λ policy. ComesOut (λ limits splits. OverKeys (Sums limits splits policy) first last) (λ s.
        of_halves low.new high.new ≡ s))) }
{
    if !handle.is_open() {
        return CLOSED;
    }
    let Some(policy) = policy_of(policy) else {
        return NO_SUCH_POLICY;
    };
    match handle.core().sum_keys(first, last, policy) {
        Ok(sum) => {
            let halves = crack_core::halves(sum);
            *low = halves.0;
            *high = halves.1;
            ANSWERED
        }
        Err(refusal) => refusal.code(),
    }
}

/// Lists the rows whose keys are `first` to `last`, both included, by the policy with this number: by partition and
/// then by rising serial, as far as the four lists have room. Writes to `found` how many rows the range has. Refused
/// as `Core::select_keys` is, at the same cost.
#[unsafe(no_mangle)]
pub extern "C" fn crackd_select(
    handle: &mut TableHandle,
    policy: u32,
    first: u64,
    last: u64,
    parts: &mut [u32],
    serials: &mut [u64],
    keys: &mut [u64],
    payloads: &mut [i64],
    found: &mut u64,
) -> u32
    ensures selects { OnTable handle.old handle.new result ((parts.new ≡ parts.old) × (serials.new ≡ serials.old) ×
        (keys.new ≡ keys.old) × (payloads.new ≡ payloads.old) × (found.new ≡ found.old)) (OnLists (length parts.old)
        (length serials.old ∷ length keys.old ∷ length payloads.old ∷ []) (ByPolicy policy (λ policy. ComesOut (λ limits
        splits. OverKeys (Selects limits splits policy parts.new serials.new keys.new payloads.new) first last)
        (λ rows. found.new ≡ rows)))) }
{
    if !handle.is_open() {
        return CLOSED;
    }
    let room = parts.len();
    if serials.len() != room || keys.len() != room || payloads.len() != room {
        return LENGTHS_DIFFER;
    }
    let Some(policy) = policy_of(policy) else {
        return NO_SUCH_POLICY;
    };
    match handle
        .core()
        .select_keys(first, last, policy, parts, serials, keys, payloads)
    {
        Ok(rows) => {
            *found = rows;
            ANSWERED
        }
        Err(refusal) => refusal.code(),
    }
}

/// Writes the layout of the partition with this number: its totals to `totals`, and the least key and the size of each
/// piece to `lows` and `sizes`, as far as these have room. Refused as `Core::layout` is, at the same cost.
#[unsafe(no_mangle)]
pub extern "C" fn crackd_layout(
    handle: &mut TableHandle,
    part: u32,
    totals: &mut LayoutTotals,
    lows: &mut [u64],
    sizes: &mut [u64],
) -> u32
    ensures shows { OnTable handle.old handle.new result ((totals.new ≡ totals.old) × (lows.new ≡ lows.old) × (sizes.new
        ≡ sizes.old)) (OnLists (length lows.old) (length sizes.old ∷ []) (Shows part totals.new lows.new sizes.new)) }
{
    if !handle.is_open() {
        return CLOSED;
    }
    if sizes.len() != lows.len() {
        return LENGTHS_DIFFER;
    }
    match handle.core().layout(part) {
        Ok(layout) => {
            *totals = picture::totals_of(&layout);
            picture::list_pieces(layout.pieces.as_slice(), lows, sizes);
            ANSWERED
        }
        Err(refusal) => refusal.code(),
    }
}

/// Makes a checkpoint of the partition with this number, and writes to `folded` how many commands the partition had
/// accepted since its previous one. Refused as `Core::checkpoint` is, at the same cost.
#[unsafe(no_mangle)]
pub extern "C" fn crackd_checkpoint(handle: &mut TableHandle, part: u32, folded: &mut u64) -> u32
    ensures checkpoints { OnTable handle.old handle.new result (folded.new ≡ folded.old) (CheckpointsOne part
        folded.new) }
{
    if !handle.is_open() {
        return CLOSED;
    }
    match handle.core().checkpoint(part) {
        Ok(entries) => {
            *folded = entries;
            ANSWERED
        }
        Err(refusal) => refusal.code(),
    }
}

/// Writes to `accepted` how many commands the partitions have accepted since they were opened. O(partitions).
#[unsafe(no_mangle)]
pub extern "C" fn crackd_accepted(handle: &mut TableHandle, accepted: &mut u64) -> u32
    ensures accepted { OnTable handle.old handle.new result (accepted.new ≡ accepted.old) (λ old new status unwritten.
        (new.is_open ≡ true) × (new.core ≡ old.core) × (status ≡ 0) × (accepted.new ≡ accepted_by old.core.parts)) }
{
    if !handle.is_open() {
        return CLOSED;
    }
    *accepted = handle.core().accepted();
    ANSWERED
}

/// Inserts a row for each key and payload, in order, and writes each row's number to `parts` and `serials`. Refused as
/// `Core::insert_many` is, at the same cost.
#[unsafe(no_mangle)]
pub extern "C" fn crackd_insert_many(
    handle: &mut TableHandle,
    keys: &[u64],
    payloads: &[i64],
    parts: &mut [u32],
    serials: &mut [u64],
    done: &mut u64,
) -> u32
    ensures inserts { OnTable handle.old handle.new result ((parts.new ≡ parts.old) × (serials.new ≡ serials.old) ×
        (done.new ≡ done.old)) (OnLists (length keys.now) (length payloads.now ∷ length parts.old ∷ length serials.old ∷
        []) (GoesThrough (λ limits splits. InsertsAt limits splits keys.now payloads.now parts.new serials.new) (length
        keys.now) done.new)) }
{
    if !handle.is_open() {
        return CLOSED;
    }
    let count = keys.len();
    if payloads.len() != count || parts.len() != count || serials.len() != count {
        return LENGTHS_DIFFER;
    }
    let progress = handle.core().insert_many(keys, payloads, parts, serials);
    close_list(progress, done)
}

/// Deletes the rows with these partitions and serials, in order, and writes to `gone` 1 for each row that existed and
/// 0 for each that didn't. Refused as `Core::delete_many` is, at the same cost.
#[unsafe(no_mangle)]
pub extern "C" fn crackd_delete_many(
    handle: &mut TableHandle,
    parts: &[u32],
    serials: &[u64],
    gone: &mut [u8],
    done: &mut u64,
) -> u32
    ensures deletes { OnTable handle.old handle.new result ((gone.new ≡ gone.old) × (done.new ≡ done.old)) (OnLists
        (length parts.now) (length serials.now ∷ length gone.old ∷ []) (GoesThrough (λ limits splits. DeletesAt limits
        splits parts.now serials.now gone.new) (length parts.now) done.new)) }
{
    if !handle.is_open() {
        return CLOSED;
    }
    let count = parts.len();
    if serials.len() != count || gone.len() != count {
        return LENGTHS_DIFFER;
    }
    let progress = handle.core().delete_many(parts, serials, gone);
    close_list(progress, done)
}

/// Replaces the keys and the payloads of the rows with these partitions and serials, in order, and writes to `found` 1
/// for each row that exists and 0 for each that doesn't. Refused as `Core::update_many` is, at the same cost.
#[unsafe(no_mangle)]
pub extern "C" fn crackd_update_many(
    handle: &mut TableHandle,
    parts: &[u32],
    serials: &[u64],
    keys: &[u64],
    payloads: &[i64],
    found: &mut [u8],
    done: &mut u64,
) -> u32
    ensures updates { OnTable handle.old handle.new result ((found.new ≡ found.old) × (done.new ≡ done.old)) (OnLists
        (length parts.now) (length serials.now ∷ length keys.now ∷ length payloads.now ∷ length found.old ∷ [])
        (GoesThrough (λ limits splits. UpdatesAt limits splits parts.now serials.now keys.now payloads.now
        found.new) (length parts.now) done.new)) }
{
    if !handle.is_open() {
        return CLOSED;
    }
    let count = parts.len();
    if serials.len() != count || keys.len() != count || payloads.len() != count {
        return LENGTHS_DIFFER;
    }
    if found.len() != count {
        return LENGTHS_DIFFER;
    }
    let progress = handle
        .core()
        .update_many(parts, serials, keys, payloads, found);
    close_list(progress, done)
}

/// Counts the rows of each range, given by its first and last key, both included, by the policy with this number, and
/// writes the results to `counts`. Refused as `Core::count_many` is, at the same cost.
#[unsafe(no_mangle)]
pub extern "C" fn crackd_count_many(
    handle: &mut TableHandle,
    policy: u32,
    firsts: &[u64],
    lasts: &[u64],
    counts: &mut [u64],
    done: &mut u64,
) -> u32
    ensures counts { OnTable handle.old handle.new result ((counts.new ≡ counts.old) × (done.new ≡ done.old)) (OnLists
        (length firsts.now) (length lasts.now ∷ length counts.old ∷ []) (ByPolicy policy (λ policy. GoesThrough (λ
        limits splits. CountsAt limits splits policy firsts.now lasts.now counts.new) (length firsts.now) done.new))) }
{
    if !handle.is_open() {
        return CLOSED;
    }
    let count = firsts.len();
    if lasts.len() != count || counts.len() != count {
        return LENGTHS_DIFFER;
    }
    let Some(policy) = policy_of(policy) else {
        return NO_SUCH_POLICY;
    };
    let progress = handle.core().count_many(firsts, lasts, policy, counts);
    close_list(progress, done)
}

/// Sums the payloads of each range, given by its first and last key, both included, by the policy with this number.
/// Writes the low 64 bits of each sum to `lows`, and the bits above them to `highs`. Refused as `Core::sum_many` is,
/// at the same cost.
#[unsafe(no_mangle)]
pub extern "C" fn crackd_sum_many(
    handle: &mut TableHandle,
    policy: u32,
    firsts: &[u64],
    lasts: &[u64],
    lows: &mut [u64],
    highs: &mut [i64],
    done: &mut u64,
) -> u32
    ensures sums { OnTable handle.old handle.new result ((lows.new ≡ lows.old) × (highs.new ≡ highs.old) × (done.new ≡
        done.old)) (OnLists (length firsts.now) (length lasts.now ∷ length lows.old ∷ length highs.old ∷ []) (ByPolicy
        policy (λ policy. GoesThrough (λ limits splits. SumsAt limits splits policy firsts.now lasts.now lows.new
        highs.new) (length firsts.now) done.new))) }
{
    if !handle.is_open() {
        return CLOSED;
    }
    let count = firsts.len();
    if lasts.len() != count || lows.len() != count || highs.len() != count {
        return LENGTHS_DIFFER;
    }
    let Some(policy) = policy_of(policy) else {
        return NO_SUCH_POLICY;
    };
    let progress = handle.core().sum_many(firsts, lasts, policy, lows, highs);
    close_list(progress, done)
}
