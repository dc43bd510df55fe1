//! The handle by which C code holds a table.
ghost use Rattle.std.specs.Prelude.{◌≡◌, ℕ, true, false};
ghost use Rattle.crack_core.specs.Cores.{CoreState};
ghost use Rattle.crackd_c.specs.Handles.{core_coded, handle_owns};
ghost use Rattle.std.specs.Borrow.{sem};

use crate::parts::BoxParts;
use crack_core::Core;
use std::alloc::Global;
use std::marker::{Model, Send};
use std::{mem, ptr};

/// A handle by which C code holds a table, or none. A handle whose bytes are all zero holds none.
#[repr(C)]
#[derive(Drop)]
pub struct TableHandle {
    at: *mut u8,
    is_open: bool,
    ghost core: { CoreState } by { core_coded },
}

impl Model for TableHandle {
    ghost also_owns = { λ h. handle_owns h.is_open h.at h.core };
}

impl TableHandle {
    ghost use Rattle.crackd_c.specs.Lends.{core_follows};

    /// Whether the handle holds a table. O(1).
    pub fn is_open(&mut self) -> bool
        ensures { (result ≡ self.old.is_open) × (self.new ≡ self.old) }
    {
        self.is_open
    }

    /// A handle that holds this table. O(1).
    pub fn of(core: Box<Core>) -> TableHandle
        ensures { (result.is_open ≡ true) × (result.core ≡ core.value) }
    {
        TableHandle::of_parts(BoxParts::of(core))
    }

    /// Takes the table out of the handle, which must hold one. Then the handle holds none. O(1).
    pub fn take(&mut self, alloc: Global) -> Box<Core>
        requires { self.old.is_open ≡ true }
        ensures value { result.value ≡ self.old.core }
        ensures closed { self.new.is_open ≡ false }
    {
        let closed = TableHandle::closed();
        mem::replace(self, closed).into_parts(alloc).into_box()
    }

    /// A handle that holds no table.
    fn closed() -> TableHandle
        ensures { result.is_open ≡ false }
    {
        TableHandle {
            at: ptr::null_mut(),
            is_open: false,
        }
    }

    /// A handle that holds the table of a box, given by the parts of the box.
    fn of_parts(parts: BoxParts<Core, Global>) -> TableHandle
        ensures { (result.is_open ≡ true) × (result.core ≡ parts.value) }
    {
        let BoxParts { ptr, alloc: _ } = parts;
        TableHandle {
            at: ptr as *mut u8,
            is_open: true,
        }
    }

    /// The parts of the box that has the handle's table. The handle must hold a table.
    fn into_parts(self, alloc: Global) -> BoxParts<Core, Global>
        requires { self.is_open ≡ true }
        ensures { result.value ≡ self.core }
    {
        let TableHandle { at, is_open: _ } = self;
        BoxParts {
            ptr: at as *mut Core,
            alloc,
        }
    }

    /// Borrows the table of the handle, which must hold one. O(1).
    pub fn core(&mut self) -> &mut Core
        requires { self.old.is_open ≡ true }
        ensures* writes_back { sem 𝓛 (core_follows self.entry result) }
        ensures value { result.now ≡ self.old.core }
    {
        unsafe { &mut *(self.at as *mut Core) }
    }
}

unsafe impl Send for TableHandle {}
