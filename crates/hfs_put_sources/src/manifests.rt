//! Lines of manifests.
ghost use Rattle.std.specs.Prelude.{◌≡◌, MatchOption, None, Some};
ghost use Rattle.hfs_put_sources.specs.Manifests.{digest_in, digest_of, path_in};

use hex::FromHex;

/// The digest with these digits.
fn digest_of(digits: &[u8]) -> Option<[u8; 32]>
    ensures { result ≡ digest_of digits.now }
{
    <[u8; 32] as FromHex>::from_hex(digits).ok()
}

/// The digest and the path in a manifest's line: 64 hexadecimal digits, two spaces, and the path. See
/// [`crate::manifest_read_back`].
#[tactic(auto, using(crate::proofs::DigestLines::digest_short, crate::proofs::DigestLines::digest_marked, crate::proofs::DigestLines::digest_unmarked))]
pub fn manifest_line(line: &[u8]) -> Option<([u8; 32], &[u8])>
    ensures { MatchOption result (digest_in line.now ≡ None)
        (λ found. (digest_in line.now ≡ Some found.0) × (found.1.now ≡ path_in line.now)) }
{
    if line.len() < 64 {
        return None;
    }
    let (digits, behind) = line.split_at(64);
    let Some(path) = behind.strip_prefix(b"  ") else {
        return None;
    };
    match digest_of(digits) {
        Some(digest) => Some((digest, path)),
        None => None,
    }
}
