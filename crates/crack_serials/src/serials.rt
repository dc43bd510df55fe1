//! The map from serials to handles.
ghost use Rattle.std.specs.Prelude.{◌≡◌, ◌+◌, ◌-◌, ◌<◌, ◌≤◌, ◌^◌, [], length, min, is_some, if◌then◌else◌, Some, None};
ghost use Rattle.std.specs.Prelude.{IsSome, slice_index_or, IfSome, IfOk, IfErr, OnOk, OnErr, IsOk};
ghost use Rattle.std.specs.Option.{option_map};
ghost use Rattle.crack_row.specs.declared.refusal.Refusal.TheVariants.{OutOfMemory};
ghost use Rattle.crack_serials.specs.Serials.{handle_of, Maps, with_serial, IsLead, room_for, KeepsRoom};
ghost use Rattle.crack_serials.specs.Serials.{UsesRoom, HasRoom};
ghost use Rattle.crack_serials.specs.Keeps.{AreMade, KeepsLists, HaveShares};
ghost use Rattle.crack_serials.specs.Views.{rooms_of};

use crate::serial_hash::SerialHashing;
use crate::shares::{MAPS, map_of, share};
use crack_arena::Handle;
use crack_row::{Refusal, Row, Serial};
use indexmap::IndexMap;
use std::alloc::Global;
use std::marker::Model;

/// The number of rows for which each map first has room.
const FIRST_ROWS: usize = 32;

/// One of the maps.
type Map = IndexMap<u64, Handle<Row>, SerialHashing>;

/// The handles of rows by their serials, in 64 maps, each of which grows by itself. Serial s is in map s / 32 mod
/// 64: neighbouring serials share a map, so that look-ups of neighbours read the same memory.
#[derive(Drop)]
pub struct Serials {
    // None, or all 64.
    maps: Vec<Map>,
}

impl Model for Serials {
    ghost use Rattle.crack_serials.specs.Serials.{Serials as Entries};
    ghost use Rattle.crack_serials.specs.Keeps.{IsSpread};
    ghost use Rattle.crack_serials.specs.Views.{entries_in_maps, rooms_of};

    ghost Value = { Entries };

    ghost view = { λ s. record { entries = entries_in_maps s.maps.items; room = rooms_of s.maps.items } };

    ghost invariant = { λ s. IsSpread s.maps.items };
}

/// A serial that was looked up: its handle, and the index `at` of its entry in its map.
#[derive(Clone, Copy)]
pub struct Lead {
    pub serial: Serial,
    pub at: usize,
    pub handle: Handle<Row>,
}

impl Serials {
    /// Makes a map without serials. O(1), takes no memory.
    pub fn new(alloc: Global) -> Serials
        ensures entries { result.entries ≡ [] }
        ensures room { result.room ≡ [] }
    {
        Serials {
            maps: Vec::new(alloc),
        }
    }

    /// The allocator of the maps. O(1).
    pub fn allocator(&self) -> &Global {
        self.maps.allocator()
    }

    /// The number of serials, or `usize::MAX` if there are more. O(maps).
    pub fn len(&self) -> usize
        ensures { result ≡ min (length self.now.entries) (2 ^ 64 - 1) }
    {
        let mut rows = 0usize;
        'maps: for map in 0..self.maps.len() {
            rows = rows.saturating_add(self.maps[map].len());
        }
        rows
    }

    /// The handle of a serial, or `None` if the serial isn't in its map. O(1).
    pub fn get(&self, serial: Serial) -> Option<Handle<Row>>
        ensures { result ≡ handle_of self.now.entries serial.0 }
    {
        let map = self.maps.get(map_of(serial))?;
        map.get(&serial.0).copied()
    }

    /// Looks up a serial: its handle, and the index of its entry in its map. `None` if the serial isn't in its map.
    /// O(1).
    pub fn find(&self, serial: Serial) -> Option<Lead>
        ensures serial { IfSome result (λ lead. lead.serial ≡ serial) }
        ensures entry { IfSome result (λ lead. IsLead lead self.now.entries) }
        ensures handle { option_map (λ lead. lead.handle) result ≡ handle_of self.now.entries serial.0 }
    {
        let map = self.maps.get(map_of(serial))?;
        let (at, _, handle) = map.get_full(&serial.0)?;
        Some(Lead {
            serial,
            at,
            handle: *handle,
        })
    }

    /// Looks up a serial that must be in its map: its handle, and the index of its entry there. O(1).
    pub fn lead_of(&self, serial: Serial) -> Lead
        requires { IsSome (handle_of self.now.entries serial.0) }
        ensures serial { result.serial ≡ serial }
        ensures entry { IsLead result self.now.entries }
        ensures handle { handle_of self.now.entries serial.0 ≡ Some result.handle }
    {
        match self.find(serial) {
            Some(lead) => lead,
            None => unreachable!(),
        }
    }

    /// Makes room for the insertion of a serial. O(1), except for the first call, which makes the maps, and for the
    /// growth of the serial's map. Refused with `OutOfMemory` if no memory is found; then no entry has changed.
    pub fn reserve(&mut self, serial: Serial) -> Result<(), Refusal>
        ensures entries { self.new.entries ≡ self.old.entries }
        ensures ok { OnOk result (0 < room_for self.new serial.0) }
        ensures succeeds { 0 < room_for self.old serial.0 → IsOk result }
        ensures room { KeepsRoom self.old self.new }
        ensures err { IfErr result (λ e. e ≡ OutOfMemory) }
    {
        self.have_maps()?;
        reserve_in(&mut self.maps, map_of(serial), 1)
    }

    /// Makes room for the insertions of `count` consecutive serials, from `first` on. O(maps), except for the growth
    /// of maps. Refused with `OutOfMemory` if no memory is found; then no entry has changed.
    pub fn reserve_many(&mut self, first: Serial, count: usize) -> Result<(), Refusal>
        ensures entries { self.new.entries ≡ self.old.entries }
        ensures ok { OnOk result (HasRoom self.new first.0 count) }
        ensures succeeds { HasRoom self.old first.0 count → IsOk result }
        ensures room { KeepsRoom self.old self.new }
        ensures err { IfErr result (λ e. e ≡ OutOfMemory) }
    {
        if count == 0 {
            return Ok(());
        }
        self.have_maps()?;
        reserve_shares(&mut self.maps, first, count)
    }

    /// Makes the 64 maps if there are none. O(maps). Refused with `OutOfMemory` if no memory is found; then there are
    /// none.
    #[inline(always)]
    fn have_maps(&mut self) -> Result<(), Refusal>
        ensures entries { self.new.entries ≡ self.old.entries }
        ensures ok { OnOk result (length self.new.room ≡ 64) }
        ensures succeeds { 0 < length self.old.room → IsOk result }
        ensures room { KeepsRoom self.old self.new }
        ensures err { IfErr result (λ e. e ≡ OutOfMemory) }
    {
        if self.maps.is_empty() {
            make_maps(&mut self.maps)?;
        }
        Ok(())
    }

    /// Sets the handle of a serial, and returns the serial's old handle, or `None` if it had none. O(1), except for
    /// growth. Refused with `OutOfMemory` if no memory is found; then no entry has changed.
    pub fn insert(
        &mut self,
        serial: Serial,
        handle: Handle<Row>,
    ) -> Result<Option<Handle<Row>>, Refusal>
        ensures old { IfOk result (λ old. old ≡ handle_of self.old.entries serial.0) }
        ensures updates { OnOk result (Maps serial.0 (Some handle) self.old.entries self.new.entries) }
        ensures entries { OnOk result (handle_of self.old.entries serial.0 ≡ None
            → self.new.entries ≡ with_serial serial.0 handle self.old.entries) }
        ensures len { IfOk result (λ old. length self.new.entries
            ≡ length self.old.entries + (if is_some old then 0 else 1)) }
        ensures same { OnErr result (self.new.entries ≡ self.old.entries) }
        ensures succeeds { 0 < room_for self.old serial.0 → IsOk result }
        ensures room { UsesRoom serial.0 self.old self.new }
        ensures err { IfErr result (λ e. e ≡ OutOfMemory) }
    {
        self.reserve(serial)?;
        Ok(self.insert_reserved(serial, handle))
    }

    /// Sets the handle of a serial, and returns the serial's old handle, or `None` if it had none. There must be room
    /// in the serial's map. Takes no memory. O(1).
    pub fn insert_reserved(&mut self, serial: Serial, handle: Handle<Row>) -> Option<Handle<Row>>
        requires { 0 < room_for self.old serial.0 }
        ensures old { result ≡ handle_of self.old.entries serial.0 }
        ensures updates { Maps serial.0 (Some handle) self.old.entries self.new.entries }
        ensures entries { handle_of self.old.entries serial.0 ≡ None
            → self.new.entries ≡ with_serial serial.0 handle self.old.entries }
        ensures len { length self.new.entries ≡ length self.old.entries + (if is_some result then 0 else 1) }
        ensures room { UsesRoom serial.0 self.old self.new }
    {
        let map = &mut self.maps[map_of(serial)];
        match map.insert(serial.0, handle) {
            Ok(before) => before,
            Err(_) => unreachable!(),
        }
    }

    /// Removes a serial, and returns its handle, or `None` if the serial wasn't in its map. Takes no memory. O(1).
    pub fn remove(&mut self, serial: Serial) -> Option<Handle<Row>>
        ensures handle { result ≡ handle_of self.old.entries serial.0 }
        ensures updates { Maps serial.0 None self.old.entries self.new.entries }
        ensures len { length self.new.entries + (if is_some result then 1 else 0) ≡ length self.old.entries }
        ensures room { KeepsRoom self.old self.new }
    {
        let lead = self.find(serial)?;
        let handle = lead.handle;
        self.forget_at(lead);
        Some(handle)
    }

    /// Removes the serial of `lead`, the result of a look-up, without another search. The lead must still be right:
    /// the entry at its index has its serial and its handle. The last entry of the serial's map takes the place of
    /// the removed one. Takes no memory. O(1).
    pub fn forget_at(&mut self, lead: Lead)
        requires { IsLead lead self.old.entries }
        ensures updates { Maps lead.serial.0 None self.old.entries self.new.entries }
        ensures len { length self.new.entries + 1 ≡ length self.old.entries }
        ensures room { KeepsRoom self.old self.new }
    {
        let map = &mut self.maps[map_of(lead.serial)];
        map.swap_remove_index(lead.at);
    }

    /// Sets the handle of the serial of `lead`, the result of a look-up, without another search. The lead must still
    /// be right: the entry at its index has its serial and its old handle. Takes no memory. O(1).
    pub fn lead_to(&mut self, lead: Lead, handle: Handle<Row>)
        requires { IsLead lead self.old.entries }
        ensures updates { Maps lead.serial.0 (Some handle) self.old.entries self.new.entries }
        ensures len { length self.new.entries ≡ length self.old.entries }
        ensures room { KeepsRoom self.old self.new }
    {
        let map = &mut self.maps[map_of(lead.serial)];
        match map.get_index_mut(lead.at) {
            Some(there) => *there = handle,
            None => unreachable!(),
        }
    }
}

/// Makes the 64 maps in a list that has none. O(maps). Refused with `OutOfMemory` if memory isn't found for all of
/// them; then there are none.
#[cold]
#[inline(never)]
fn make_maps(maps: &mut Vec<Map>) -> Result<(), Refusal>
    requires { length maps.old.items ≡ 0 }
    ensures ok { OnOk result (AreMade 64 maps.new.items) }
    ensures none { OnErr result (maps.new.items ≡ []) }
    ensures err { IfErr result (λ e. e ≡ OutOfMemory) }
{
    maps.reserve(MAPS)?;
    let alloc = *maps.allocator();
    'maps: for _ in 0..MAPS {
        match IndexMap::with_capacity_and_hasher(alloc, FIRST_ROWS, SerialHashing) {
            Ok(map) => maps.push_reserved(map),
            Err(_) => {
                maps.clear();
                return Err(Refusal::OutOfMemory);
            }
        }
    }
    Ok(())
}

/// Makes room for this many more entries in the map with this number. O(1), except for growth. Refused with
/// `OutOfMemory` if no memory is found; then no entry has changed.
#[inline(always)]
fn reserve_in(maps: &mut Vec<Map>, number: usize, additional: usize) -> Result<(), Refusal>
    requires { number < length maps.old.items }
    ensures lists { KeepsLists maps.old.items maps.new.items }
    ensures ok { OnOk result (additional ≤ slice_index_or (rooms_of maps.new.items) number 0) }
    ensures succeeds { additional ≤ slice_index_or (rooms_of maps.old.items) number 0 → IsOk result }
    ensures err { IfErr result (λ e. e ≡ OutOfMemory) }
{
    let map = &mut maps[number];
    map.reserve(additional)?;
    Ok(())
}

/// Makes room in each map for its share of `count` consecutive serials, from `first` on. O(maps), except for growth.
/// Refused with `OutOfMemory` if no memory is found; then no entry has changed, but some maps may have more room.
fn reserve_shares(maps: &mut Vec<Map>, first: Serial, count: usize) -> Result<(), Refusal>
    requires { length maps.old.items ≡ 64 }
    ensures lists { KeepsLists maps.old.items maps.new.items }
    ensures ok { OnOk result (HaveShares 64 first.0 count (rooms_of maps.new.items)) }
    ensures succeeds { HaveShares 64 first.0 count (rooms_of maps.old.items) → IsOk result }
    ensures err { IfErr result (λ e. e ≡ OutOfMemory) }
{
    'maps: for number in 0..MAPS {
        reserve_in(maps, number, share(number, first, count))?;
    }
    Ok(())
}
