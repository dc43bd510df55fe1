//! Why a run of the program was refused.
use crack_row::Refusal;
use std::alloc::AllocError;
use std::fmt;
use std::fmt::{Display, Formatter, Write};

/// Why a run of the program was refused. Its text is that of the refusal, and then, after a colon, the cause in words.
#[derive(Clone, Copy, PartialEq, Eq, Debug, Drop)]
pub enum Complaint {
    /// The line with this number of a batch isn't a number, a space and a statement. Lines are counted from 1, blank
    /// ones too.
    BadLine { number: u64 },
    /// Any other refusal.
    Refused(Refusal),
}

impl Complaint {
    /// The refusal: `BadStatement` for a line of a batch. O(1).
    pub fn refusal(&self) -> Refusal {
        match *self {
            Complaint::BadLine { .. } => Refusal::BadStatement,
            Complaint::Refused(refusal) => refusal,
        }
    }
}

impl Display for Complaint {
    /// Writes the text, without a line feed. Fails if the writer fails.
    fn fmt<W: Write>(&self, f: &mut Formatter<W>) -> fmt::Result {
        let refusal = self.refusal();
        match *self {
            Complaint::BadLine { number } => {
                write!(f, "{refusal}: line {number}: not a statement")
            }
            Complaint::Refused(_) => write!(f, "{refusal}: {}", refusal.cause()),
        }
    }
}

impl From<Refusal> for Complaint {
    /// Always `Refused`.
    fn from(refusal: Refusal) -> Complaint {
        Complaint::Refused(refusal)
    }
}

impl From<AllocError> for Complaint {
    /// Always `Refused`, with `OutOfMemory`.
    fn from(error: AllocError) -> Complaint {
        Complaint::Refused(Refusal::from(error))
    }
}
