//! Copies into memory that the caller gives.
ghost use Rattle.std.specs.Prelude.{◌≡◌, ◌≤◌, length};
ghost use Rattle.c_handles.specs.Copying.{overlaid};

/// Copies as many of the first items as there is room for.
pub fn copy_front<T: Copy>(from: &[T], to: &mut [T])
    ensures { to.new ≡ overlaid from.now to.old }
{
    let count = from.len().min(to.len());
    to[..count].copy_from_slice(&from[..count]);
}
