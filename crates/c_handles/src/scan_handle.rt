//! A handle as C holds it: whether it is full, and then a box.
ghost use Rattle.std.specs.Prelude.{◌≡◌, Option, Some, None, IfSome, IfNone};
ghost use Rattle.script_model.specs.Machine.{Machine};
ghost use Rattle.c_handles.specs.Owned.{machine_coded};

use crate::parts::Parts;
use scanning_calls::Scanning;
use std::alloc::Global;
use std::marker::Model;

#[repr(C)]
pub struct ScanHandle {
    at: *mut u8,
    alloc: Global,
    full: bool,
    ghost held: { Option Machine } by { machine_coded },
}

impl Model for ScanHandle {
    ghost use Rattle.c_handles.specs.Owned.{owned};
    ghost use Rattle.scanning_calls.specs.contracts.scanning.Scanning.{the_row};
    ghost use Rattle.std.specs.contracts.impls.GlobalAllocator.TheImpl.{ghosts};

    ghost also_owns = { λ h. owned (ghosts.dealloc_token h.alloc) the_row h.full h.at h.held };
}

unsafe impl Send for ScanHandle {}

impl ScanHandle {
    fn of_parts(parts: Parts<Scanning, Global>) -> ScanHandle
        ensures { result.held ≡ Some parts.value }
    {
        let Parts { ptr, alloc } = parts;
        ScanHandle {
            at: ptr as *mut u8,
            alloc,
            full: true,
        }
    }

    /// The empty one.
    pub fn empty(alloc: Global) -> ScanHandle
        ensures { result.held ≡ None }
    {
        ScanHandle {
            at: std::ptr::null_mut(),
            alloc,
            full: false,
        }
    }

    fn into_parts(self) -> Option<Parts<Scanning, Global>>
        ensures some { IfSome result (λ parts. self.held ≡ Some parts.value) }
        ensures none { IfNone result (self.held ≡ None) }
    {
        let ScanHandle { at, alloc, full } = self;
        if full {
            return Some(Parts {
                ptr: at as *mut Scanning,
                alloc,
            });
        }
        None
    }

    /// That of a box.
    pub fn of(b: Box<Scanning, Global>) -> ScanHandle
        ensures { result.held ≡ Some b.value }
    {
        ScanHandle::of_parts(Parts::of(b))
    }

    /// The box, where there is one.
    pub fn into_box(self) -> Option<Box<Scanning, Global>>
        ensures some { IfSome result (λ b. self.held ≡ Some b.value) }
        ensures none { IfNone result (self.held ≡ None) }
    {
        match self.into_parts() {
            Some(parts) => Some(parts.into_box()),
            None => None,
        }
    }
}

impl Drop for ScanHandle {
    fn drop(self) {
        match self.into_box() {
            Some(b) => drop(b),
            None => {}
        }
    }
}
