//! How many statements a server answered in the last minute, and the longest time that one turn took.

/// For how many seconds the counts of answered statements are kept.
pub(crate) const SECONDS: u64 = 60;

/// How many statements were answered in each of the last seconds, and the longest time of a turn in each, in
/// microseconds. The index of a second is its number modulo `SECONDS`.
#[derive(Drop)]
pub(crate) struct Pace {
    answered: [u64; 60],
    longest: [u64; 60],
    /// The last second that was recorded.
    second: u64,
}

impl Pace {
    /// The counts of a server that has answered nothing; `second` is the present second.
    pub(crate) fn new(second: u64) -> Pace {
        Pace {
            answered: [0; 60],
            longest: [0; 60],
            second,
        }
    }

    /// Records that `answered` statements were answered in this second or shortly before it, and that the longest of
    /// their turns took `longest` microseconds.
    pub(crate) fn note(&mut self, second: u64, answered: u64, longest: u64) {
        self.go_on(second);
        let place = (self.second % SECONDS) as usize;
        if let Some(sum) = self.answered.get_mut(place) {
            *sum = sum.saturating_add(answered);
        }
        if let Some(most) = self.longest.get_mut(place) {
            *most = (*most).max(longest);
        }
    }

    /// How many statements were answered in the last minute, which ends with this second, and how many microseconds the
    /// longest turn in it took.
    pub(crate) fn last_minute(&mut self, second: u64) -> (u64, u64) {
        self.go_on(second);
        (sum_of(&self.answered), greatest_of(&self.longest))
    }

    /// Makes `second` the last recorded second, unless it is earlier than that: clears the counts of the seconds after
    /// the last recorded one, up to `second`.
    fn go_on(&mut self, second: u64) {
        let passed = second.saturating_sub(self.second).min(SECONDS);
        'seconds: for back in 0..passed {
            let place = (second.saturating_sub(back) % SECONDS) as usize;
            if let Some(sum) = self.answered.get_mut(place) {
                *sum = 0;
            }
            if let Some(most) = self.longest.get_mut(place) {
                *most = 0;
            }
        }
        self.second = self.second.max(second);
    }
}

/// The sum of these numbers, which saturates at `u64::MAX`.
fn sum_of(numbers: &[u64]) -> u64 {
    let mut sum = 0u64;
    'numbers: for number in numbers {
        sum = sum.saturating_add(*number);
    }
    sum
}

/// The greatest of these numbers, or 0 if there are none.
fn greatest_of(numbers: &[u64]) -> u64 {
    let mut greatest = 0u64;
    'numbers: for number in numbers {
        greatest = greatest.max(*number);
    }
    greatest
}
