//! Which map a serial is in, and how many of consecutive serials are in each.
ghost use Rattle.std.specs.Prelude.{◌≡◌, ◌<◌};
ghost use Rattle.crack_serials.specs.Serials.{map_of, shares};
ghost use Rattle.crack_serials.specs.Shares.{below};

use crack_row::Serial;

/// The number of maps.
pub(crate) const MAPS: usize = 64;

/// How many neighbouring serials belong to the same map.
pub(crate) const NEIGHBOURS: u64 = 32;

/// How many consecutive serials all maps together have if each map has `NEIGHBOURS` of them.
pub(crate) const ROUND: u64 = 2048;

/// The number of the map to which a serial belongs. O(1).
#[inline(always)]
pub(crate) fn map_of(serial: Serial) -> usize
    ensures value { result ≡ map_of serial.0 }
    ensures within { result < 64 }
{
    (serial.0 / NEIGHBOURS) as usize % MAPS
}

/// How many of `count` consecutive serials, from `first` on, belong to the map with this number. O(1).
pub(crate) fn share(map: usize, first: Serial, count: usize) -> usize
    requires { map < 64 }
    ensures { result ≡ shares map first.0 count }
{
    let start = first.0 % ROUND;
    let rest = count as u64 % ROUND;
    let rounds = count as u64 / ROUND;
    (rounds * NEIGHBOURS + serials_below(map, start + rest) - serials_below(map, start)) as usize
}

/// How many of the serials below `end` belong to the map with this number. O(1).
fn serials_below(map: usize, end: u64) -> u64
    requires { map < 64 }
    ensures { result ≡ below map end }
{
    let before = map as u64 * NEIGHBOURS;
    end / ROUND * NEIGHBOURS + (end % ROUND).saturating_sub(before).min(NEIGHBOURS)
}
