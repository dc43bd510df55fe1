//! The hash of serials, for the maps from serials to handles.
ghost use Rattle.std.specs.Prelude.{◌+◌, ◌*◌, ◌/◌, ◌%◌, ◌^◌, ◌==◌, if◌then◌else◌, length, bit_xor};
ghost use Rattle.std.specs.Int.{w64, from_le_bytes};

use crate::shares::{NEIGHBOURS, ROUND};
use std::hash::{BuildHasher, Hasher};

/// How many of a map's consecutive serials share a group of its table.
const IN_GROUP: u64 = 4;

/// How many adjacent groups a series of neighbouring serials fills.
const ADJACENT_GROUPS: u64 = 8;

/// Odd, so that consecutive series have different places modulo each power of two, and spread over all of them.
const SPREAD: u64 = 0x9e37_79b9_7f4a_7c15;

/// Hashes the serials of one map for `indexmap`: its table has a power of two of groups, of 12 rows each and 9 on
/// average once it is full. The low bits of a hash choose the group, and the highest eight of its 32 distinguish
/// rows of one group.
///
/// A partition gives serials in order, so consecutive inserts go into a group whose line is in the cache, and a
/// growth copies the table series by series. A client can't choose serials, so the hash needs no secret against
/// deliberate collisions. A worse hash would only cost time, since a look-up compares serials.
#[derive(Clone, Copy)]
pub struct SerialHashing;

impl BuildHasher for SerialHashing {
    type Hasher = SerialHasher;

    ghost build_hasher = { λ _. record { serial = 0 } };

    /// A hasher to which nothing was written yet. It hashes the serial 0.
    fn build_hasher(&self) -> SerialHasher {
        SerialHasher { serial: 0 }
    }
}

/// Hashes the 64-bit serial that was written last. A write of another length is ignored.
#[derive(Clone, Copy)]
pub struct SerialHasher {
    serial: u64,
}

impl Hasher for SerialHasher {
    ghost write = { λ s bytes. if length bytes == 8 then record { serial = from_le_bytes w64 bytes } else s };

    ghost finish = { λ s. let series = s.serial / 2048 in
        let number = series * 32 + s.serial % 32 in
        let place = bit_xor series (series / 256) * 11400714819323198485 % 2 ^ 64 in
        ((place * 8 % 2 ^ 64 + bit_xor (number / 4) (place / 2 ^ 58) % 8) % 2 ^ 64
        + number * 16777216 % 2 ^ 64) % 2 ^ 64 % 4294967296 };

    /// The hash of the serial that was written last, below 2^32.
    fn finish(&self) -> u64 {
        // The serials of a map are those of every 64th series, so here the series are numbered without the others.
        let series = self.serial / ROUND;
        let number = series * NEIGHBOURS + self.serial % NEIGHBOURS;
        // Serials that are far apart differ in their higher bits, which move down here.
        let place = (series ^ series / 256).wrapping_mul(SPREAD);
        let group = (number / IN_GROUP ^ place >> 58) % ADJACENT_GROUPS;
        place
            .wrapping_mul(ADJACENT_GROUPS)
            .wrapping_add(group)
            .wrapping_add(number.wrapping_mul(16777216))
            % 4294967296
    }

    /// If there are 8 bytes, takes them as the serial to hash, lowest byte first, in place of the previous one.
    /// Otherwise does nothing.
    fn write(&mut self, bytes: &[u8]) {
        if bytes.len() == 8 {
            self.serial = u64::from_le_bytes([
                bytes[0], bytes[1], bytes[2], bytes[3], bytes[4], bytes[5], bytes[6], bytes[7],
            ]);
        }
    }
}
