//! The rows that a reply lists.
ghost use Rattle.std.specs.Prelude.{◌≡◌, IfOk, IfErr};

use crate::{Refusal, Row};
use std::alloc::Global;
use std::marker::Model;

/// The rows that a reply lists. Contracts see a list.
#[derive(Debug)]
pub struct RowList {
    rows: Vec<Row>,
}

// Written out so that the crates that use the type call this function and prove nothing about its fields.
impl Drop for RowList {
    /// Frees the memory of the rows.
    fn drop(self) {
        let Self { rows } = self;
        drop(rows);
    }
}

impl Model for RowList {
    ghost use Rattle.std.specs.Prelude.{List};
    ghost use Rattle.crack_row.specs.declared.Row.{Row};

    ghost Value = { List Row };

    ghost view = { λ l. l.rows.items };
}

impl RowList {
    /// Makes a list of these rows. O(1), takes no memory.
    pub fn from_vec(rows: Vec<Row>) -> RowList
        ensures { result ≡ rows.items }
    {
        RowList { rows }
    }

    /// The rows as a slice. O(1).
    pub fn as_slice(&self) -> &[Row]
        ensures { result.now ≡ self.now }
    {
        self.rows.as_slice()
    }

    /// Copies the list: O(rows). Refused with `OutOfMemory` if no memory is found.
    pub fn copy(&self, alloc: Global) -> Result<RowList, Refusal>
        ensures ok { IfOk result (λ copy. copy ≡ self.now) }
        ensures err { IfErr result (λ e. e ≡ Refusal.OutOfMemory) }
    {
        let rows = Vec::from_slice(alloc, self.rows.as_slice())?;
        Ok(RowList::from_vec(rows))
    }
}
