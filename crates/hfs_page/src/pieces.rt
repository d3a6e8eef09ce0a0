//! Pieces of a page, as they grow.
ghost use Rattle.std.specs.Prelude.{OnOk};
ghost use Rattle.hfs_page.specs.Pieces.{Gains};

use std::alloc::AllocError;

/// Appends bytes as they are.
pub fn push_bytes(page: &mut Vec<u8>, bytes: &[u8]) -> Result<(), AllocError>
    ensures { OnOk result (Gains page.old page.new bytes.now) }
{
    page.extend_from_slice(bytes)?;
    Ok(())
}
