//! The digest of an image.
ghost use Rattle.std.specs.Prelude.{◌≡◌, ◌≤◌, ◌++◌, IfOk, OnErr, OnOk};
ghost use Rattle.sha2.specs.Sha256.{sha256};
ghost use Rattle.hfs_fields.specs.Mdb.{bytes_at};
ghost use Rattle.hfs_source.specs.Images.{FailsWhere, OfEach};
ghost use Rattle.hfs_bag.specs.Failing.{SomeFail};

use crate::DigestWriter;
use hfs_source::PlacedBytes;
use std::io;

/// How many bytes are read at once.
const PIECE: u64 = 16_384;

/// Gives `count` bytes from `place` on to a digest.
fn add_bytes<S: PlacedBytes>(
    source: &mut S,
    digest: &mut DigestWriter,
    place: u64,
    count: u64,
) -> io::Result<()>
    requires { count ≤ 16384 }
    ensures added { OnOk result (OfEach (S.Holds source.new)
        (λ file. digest.new ≡ digest.old ++ bytes_at place count file)) }
    ensures held { OfEach (S.Holds source.new) (S.Holds source.old) }
    ensures fails { OnErr result (S.Fails source.old place count) }
    ensures later { FailsWhere (S.Fails source.new) (S.Fails source.old) }
{
    let mut piece = [0; PIECE as usize];
    let bytes = &mut piece[..count as usize];
    source.read_at(place, bytes)?;
    digest.add(bytes);
    Ok(())
}

/// The SHA-256 digest of an image, whose bytes are read once, in pieces. Error: a read failed.
#[tactic(auto, using(crate::proofs::Digests::digest_more, crate::proofs::Digests::digest_whole))]
pub fn file_digest<S: PlacedBytes>(source: &mut S) -> io::Result<[u8; 32]>
    ensures digest { IfOk result (λ digest. OfEach (S.Holds source.new)
        (λ file. digest ≡ sha256 file)) }
    ensures held { OfEach (S.Holds source.new) (S.Holds source.old) }
    ensures fails { OnErr result (SomeFail (S.Holds source.new) (S.Fails source.old)) }
    ensures later { FailsWhere (S.Fails source.new) (S.Fails source.old) }
{
    let len = source.len();
    let mut digest = DigestWriter::new();
    let mut done = 0;
    while done < len {
        let count = (len - done).min(PIECE);
        add_bytes(source, &mut digest, done, count)?;
        done += count;
    }
    Ok(digest.finish())
}
