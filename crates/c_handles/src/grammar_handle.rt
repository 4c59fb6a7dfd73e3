//! A handle as C holds it: whether it is full, and then a box.
ghost use Rattle.std.specs.Prelude.{◌≡◌, Option, Some, None, IfSome, IfNone};
ghost use Rattle.language_model.specs.Building.{Built};
ghost use Rattle.c_handles.specs.Owned.{built_coded};

use crate::SharedGrammar;
use crate::parts::Parts;
use std::alloc::Global;
use std::marker::Model;

#[repr(C)]
pub struct GrammarHandle {
    at: *mut u8,
    alloc: Global,
    full: bool,
    ghost held: { Option Built } by { built_coded },
}

impl Model for GrammarHandle {
    ghost use Rattle.c_handles.specs.Owned.{owned};
    ghost use Rattle.c_handles.specs.contracts.shared.SharedGrammar.{the_row};
    ghost use Rattle.std.specs.contracts.impls.GlobalAllocator.TheImpl.{ghosts};

    ghost also_owns = { λ h. owned (ghosts.dealloc_token h.alloc) the_row h.full h.at h.held };
}

unsafe impl Send for GrammarHandle {}

impl GrammarHandle {
    fn of_parts(parts: Parts<SharedGrammar, Global>) -> GrammarHandle
        ensures { result.held ≡ Some parts.value }
    {
        let Parts { ptr, alloc } = parts;
        GrammarHandle {
            at: ptr as *mut u8,
            alloc,
            full: true,
        }
    }

    /// The empty one.
    pub fn empty(alloc: Global) -> GrammarHandle
        ensures { result.held ≡ None }
    {
        GrammarHandle {
            at: std::ptr::null_mut(),
            alloc,
            full: false,
        }
    }

    fn into_parts(self) -> Option<Parts<SharedGrammar, Global>>
        ensures some { IfSome result (λ parts. self.held ≡ Some parts.value) }
        ensures none { IfNone result (self.held ≡ None) }
    {
        let GrammarHandle { at, alloc, full } = self;
        if full {
            return Some(Parts {
                ptr: at as *mut SharedGrammar,
                alloc,
            });
        }
        None
    }

    /// That of a box.
    pub fn of(b: Box<SharedGrammar, Global>) -> GrammarHandle
        ensures { result.held ≡ Some b.value }
    {
        GrammarHandle::of_parts(Parts::of(b))
    }

    /// The box, where there is one.
    pub fn into_box(self) -> Option<Box<SharedGrammar, Global>>
        ensures some { IfSome result (λ b. self.held ≡ Some b.value) }
        ensures none { IfNone result (self.held ≡ None) }
    {
        match self.into_parts() {
            Some(parts) => Some(parts.into_box()),
            None => None,
        }
    }
}

impl Drop for GrammarHandle {
    fn drop(self) {
        match self.into_box() {
            Some(b) => drop(b),
            None => {}
        }
    }
}
