//! Where a fault stands, and searches for the first.
ghost use Rattle.std.specs.Prelude.{◌≡◌, List, Ok, IfOk, flat_map};
ghost use Rattle.std.specs.Fn.{FnReturnsAt};
ghost use Rattle.language_model.specs.Building.{Fault, fault_at};
ghost use Rattle.dsl_faults.specs.Found.{FindsAfter, along, fault_of, IsFirst};

use dsl_statement::Spelled;
use std::alloc::AllocError;

/// A place and a name that a refusal tells.
#[derive(Clone, Copy, Debug)]
pub struct Found<'a> {
    pub at: usize,
    pub name: &'a str,
}

/// The place and the content of the token.
pub fn fault_at(token: &Spelled) -> Found<'_>
    ensures { fault_of result ≡ fault_at token.now }
{
    Found {
        at: token.at,
        name: token.content.as_str(),
    }
}

/// What is found at the first of them at which something is, where a search may want memory.
pub fn first_found<'a, T, F: Fn(&'a T) -> Result<Option<Found<'a>>, AllocError>>(
    xs: &'a [T],
    find: F,
) -> Result<Option<Found<'a>>, AllocError>
    requires { F.IsAlwaysCallable find }
    ensures { (each : T → List Fault) → ((x : _) (o : _) → FnReturnsAt F.Fn find x (Ok o) → IsFirst (each x) o) →
        IfOk result (IsFirst (flat_map each xs.now)) }
{
    for x in xs {
        let found = find(x)?;
        if found.is_some() {
            return Ok(found);
        }
    }
    Ok(None)
}

/// The same, where a search may change a state, which the next one is given.
pub fn first_after<'a, T, S: Drop, F: Fn(&mut S, &'a T) -> Result<Option<Found<'a>>, AllocError>>(
    xs: &'a [T],
    first: S,
    find: F,
) -> Result<Option<Found<'a>>, AllocError>
    requires { F.IsAlwaysCallable find }
    ensures { (each : S → T → List Fault) (after : S → T → S) →
        ((s : _) (x : _) (o : _) (t : _) → FindsAfter F.Fn find s x (Ok o) t → IsFirst (each s x) o × (t ≡ after s x)) →
        IfOk result (IsFirst (along each after first xs.now)) }
{
    let mut state = first;
    for x in xs {
        let found = find(&mut state, x)?;
        if found.is_some() {
            return Ok(found);
        }
    }
    Ok(None)
}
