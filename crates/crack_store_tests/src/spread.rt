//! The hash of serials spreads those of one map over the groups of its table.
ghost use Rattle.std.specs.Prelude.{◌<◌};

use crack_serials::serial_hash::SerialHashing;
use std::alloc::Global;
use std::hash::BuildHasher;
use std::process::Abort;

/// The number of rows that a group of a table holds.
const PLACES: u32 = 12;

/// The number of rows that a group has on average when the table is full.
const LOAD: u64 = 9;

/// The group of a serial in a table with this many groups, a power of two.
fn group_of(serial: u64, groups: usize) -> usize
    requires { 0 < groups }
{
    (SerialHashing.hash_one(serial) % groups as u64) as usize
}

/// The serial that comes after this many others in the order of its map.
fn serial_in(map: u64, before: u64) -> u64 {
    (before / 32)
        .wrapping_mul(2048)
        .wrapping_add(map.wrapping_mul(32))
        .wrapping_add(before % 32)
}

/// The number of rows in the fullest group, for this many rows of a map, each `step` rows after the one before.
fn most_in_one(rt: &impl Abort, alloc: Global, map: u64, groups: usize, step: u64, rows: u64) -> u32
    requires { 0 < groups }
{
    let mut counts = vec![in alloc; 0u32; groups].expect(rt, "memory");
    let mut most = 0;
    for row in 0..rows {
        let group = group_of(serial_in(map, row.wrapping_mul(step)), groups);
        if let Some(count) = counts.get_mut(group) {
            *count = count.saturating_add(1);
            most = most.max(*count);
        }
    }
    most
}

/// Asserts that the four serials from this one on share a group, and have different hashes.
fn assert_neighbours(rt: &impl Abort, serial: u64) {
    for next in 1..4 {
        let other = serial.wrapping_add(next);
        assert!(rt; group_of(other, 512) == group_of(serial, 512));
        assert!(rt; SerialHashing.hash_one(other) != SerialHashing.hash_one(serial));
    }
}

#[test]
fn neighbours_share_a_group(rt: HostRuntime) {
    for number in 0..1000u64 {
        assert_neighbours(&rt, number.wrapping_mul(4));
    }
}

/// For the consecutive serials of a map, no group gets more rows than it holds, up to a full table of each size.
#[test]
fn rows_of_a_map_find_their_groups_free(rt: HostRuntime) {
    for map in [0, 37, 63] {
        for groups in [4, 8, 16, 512, 4096] {
            let rows = LOAD.wrapping_mul(groups as u64);
            let most = most_in_one(&rt, rt.alloc(), map, groups, 1, rows);
            assert!(rt; most <= PLACES, "map {map}, {groups} groups");
        }
    }
}

/// If only each 256th row of a map is kept, at most two share a group, in a table for 16,384 rows and in one for
/// 4,608.
#[test]
fn rows_of_a_map_kept_far_apart_do_not_pile_up(rt: HostRuntime) {
    let large = most_in_one(&rt, rt.alloc(), 5, 2048, 256, 64);
    let small = most_in_one(&rt, rt.alloc(), 5, 512, 256, 18);
    assert!(rt; large.max(small) <= 2, "{large} {small}");
}
