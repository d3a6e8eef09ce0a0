//! Paths of what is in a bag, as its tag files name it.
ghost use Rattle.std.specs.Prelude.{◌≡◌, ◌++◌, IfOk};

use std::alloc::{AllocError, Global};

/// The bytes of a path that begins with `front` and goes on with `rest`, which may not be text.
pub(crate) fn path_behind(alloc: Global, front: &str, rest: &[u8]) -> Result<Vec<u8>, AllocError>
    ensures { IfOk result (λ path. path.items ≡ front.now ++ rest.now) }
{
    let mut path = Vec::new(alloc);
    path.extend_from_slice(front.as_bytes())?;
    path.extend_from_slice(rest)?;
    Ok(path)
}
