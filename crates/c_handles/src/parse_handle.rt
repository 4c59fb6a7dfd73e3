//! A handle as C holds it: whether it is full, and then a box.
ghost use Rattle.std.specs.Prelude.{◌≡◌, Option, Some, None, IfSome, IfNone};
ghost use Rattle.c_handles.specs.declared.parse.Parse.{Parse};

use crate::Parse;
use crate::parts::Parts;
use std::alloc::Global;
use std::marker::Model;

#[repr(C)]
pub struct ParseHandle {
    at: *mut u8,
    alloc: Global,
    full: bool,
    ghost held: { Option Parse },
}

impl Model for ParseHandle {
    ghost use Rattle.c_handles.specs.Owned.{owned};
    ghost use Rattle.c_handles.specs.contracts.parse.Parse.{the_row};
    ghost use Rattle.std.specs.contracts.impls.GlobalAllocator.TheImpl.{ghosts};

    ghost also_owns = { λ h. owned (ghosts.dealloc_token h.alloc) the_row h.full h.at h.held };
}

unsafe impl Send for ParseHandle {}

impl ParseHandle {
    fn of_parts(parts: Parts<Parse, Global>) -> ParseHandle
        ensures { result.held ≡ Some parts.value }
    {
        let Parts { ptr, alloc } = parts;
        ParseHandle {
            at: ptr as *mut u8,
            alloc,
            full: true,
        }
    }

    /// The empty one.
    pub fn empty(alloc: Global) -> ParseHandle
        ensures { result.held ≡ None }
    {
        ParseHandle {
            at: std::ptr::null_mut(),
            alloc,
            full: false,
        }
    }

    fn into_parts(self) -> Option<Parts<Parse, Global>>
        ensures some { IfSome result (λ parts. self.held ≡ Some parts.value) }
        ensures none { IfNone result (self.held ≡ None) }
    {
        let ParseHandle { at, alloc, full } = self;
        if full {
            return Some(Parts {
                ptr: at as *mut Parse,
                alloc,
            });
        }
        None
    }

    /// That of a box.
    pub fn of(b: Box<Parse, Global>) -> ParseHandle
        ensures { result.held ≡ Some b.value }
    {
        ParseHandle::of_parts(Parts::of(b))
    }

    /// The box, where there is one.
    pub fn into_box(self) -> Option<Box<Parse, Global>>
        ensures some { IfSome result (λ b. self.held ≡ Some b.value) }
        ensures none { IfNone result (self.held ≡ None) }
    {
        match self.into_parts() {
            Some(parts) => Some(parts.into_box()),
            None => None,
        }
    }
}

impl Drop for ParseHandle {
    fn drop(self) {
        match self.into_box() {
            Some(b) => drop(b),
            None => {}
        }
    }
}
