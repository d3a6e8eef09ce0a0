//! Blocks of an image.
use crate::fault::FixtureFault;

/// Writes bytes into a block of an image from byte `at` on. An error if the block isn't that long, or doesn't exist.
pub fn lay(image: &mut [u8], block: usize, at: usize, bytes: &[u8]) -> Result<(), FixtureFault> {
    if block >= 65_536 || at >= 512 || bytes.len() > 512 - at {
        return Err(FixtureFault::Outside);
    }
    let start = 512 * block + at;
    if start > image.len() || bytes.len() > image.len() - start {
        return Err(FixtureFault::Outside);
    }
    let end = start + bytes.len();
    image[start..end].copy_from_slice(bytes);
    Ok(())
}
