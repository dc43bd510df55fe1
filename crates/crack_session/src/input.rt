//! Sizes of reads and lines, and where a line ends.
ghost use Rattle.std.specs.Prelude.{◌≡◌, ◌+◌, ◌<◌, ◌≤◌, length, take, drop, true, false};
ghost use Rattle.crack_session.specs.Input.{has_feed, first_line, after_line};

use memchr::memchr;

/// The greatest number of bytes in one read.
pub const READ_BYTES: usize = 4096;

/// How many bytes of an unfinished line are kept. A line with more bytes is too long, whatever these are.
pub const KEPT_BYTES: usize = 202;

/// The index of the first line feed, or the length if there is none. O(index), no memory.
pub fn feed_at(bytes: &[u8]) -> usize
    ensures within { result ≤ length bytes.now }
    ensures front { take result bytes.now ≡ first_line bytes.now }
    ensures found { has_feed bytes.now ≡ true → (result < length bytes.now)
        × (drop (result + 1) bytes.now ≡ after_line bytes.now) }
    ensures none { has_feed bytes.now ≡ false → result ≡ length bytes.now }
{
    match memchr(b'\n', bytes) {
        Some(place) => place,
        None => bytes.len(),
    }
}
