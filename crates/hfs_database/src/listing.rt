//! What a page of a collection lists: rows of texts.
ghost use Rattle.std.specs.Prelude.{◌≡◌, [], IfErr, IfOk};
ghost use Rattle.sqlite.specs.Held.{state};
ghost use Rattle.hfs_database.specs.Faults.{FailsToAnswer};
ghost use Rattle.hfs_database.specs.Listing.{IsListed, IsShown, listing_text};

use crate::collection::Collection;
use crate::fault::{DatabaseFault, writing_fault};
use sqlite::{Alter, Connection, Row};

/// What is listed of a collection. A row has texts, or NULL for what isn't known.
#[derive(Clone, Copy, Debug, PartialEq, Eq)]
pub enum Listing {
    /// Each volume, in the order of images and numbers: the path of its page, the image's path, the volume's name, files, damaged
    /// files if any, free space, the days when it was created and modified, its verdict.
    Volumes,
    /// The 1,000 digests of forks that are on the most volumes, at least two: a path, how many volumes, how many bytes, the
    /// digest.
    Copies,
}

/// The query for a listing.
#[tactic(auto, unfolding(crate::specs::Listing::volumes_text, crate::specs::Listing::copies_text))]
fn listing_text(listing: Listing) -> &'static str
    ensures { result.now ≡ listing_text listing }
{
    match listing {
        Listing::Volumes => {
            "SELECT image.path || CASE WHEN (SELECT count(*) FROM volume AS other WHERE other.image = volume.image) = 1 THEN '' ELSE '.' || volume.number END || '.html', image.path, volume.name, 'files ' || (SELECT count(*) FROM item WHERE item.volume = volume.id AND item.kind = 'file'), 'damaged ' || nullif((SELECT count(*) FROM item WHERE item.volume = volume.id AND (item.data_verdict <> 'whole' OR item.resource_verdict <> 'whole')), 0), 'free ' || CASE WHEN volume.free_blocks * volume.block_bytes < 1048576 THEN ((volume.free_blocks * volume.block_bytes + 512) / 1024) || ' KB' ELSE ((volume.free_blocks * volume.block_bytes + 524288) / 1048576) || ' MB' END, 'created ' || substr(volume.created, 1, 10), 'modified ' || substr(volume.modified, 1, 10), volume.verdict FROM volume JOIN image ON image.id = volume.image ORDER BY image.path, volume.number"
        }
        Listing::Copies => {
            "SELECT path, 'volumes ' || volumes, bytes || ' bytes', digest FROM (SELECT min(path) AS path, count(DISTINCT volume) AS volumes, min(bytes) AS bytes, digest FROM (SELECT volume, coalesce(path, bag_path) AS path, data_bytes AS bytes, data_sha256 AS digest FROM item WHERE data_bytes > 0 AND data_sha256 IS NOT NULL UNION ALL SELECT volume, coalesce(path, bag_path), resource_bytes, resource_sha256 FROM item WHERE resource_bytes > 0 AND resource_sha256 IS NOT NULL) AS fork GROUP BY digest HAVING count(DISTINCT volume) > 1) AS content ORDER BY volumes DESC, digest LIMIT 1000"
        }
    }
}

/// All rows that a database returns for a query. Faults: `CannotWrite` if it can't be read, `NoMemory`.
#[tactic(auto, using(crate::proofs::FaultLemmas::fails_to_answer))]
fn shown<S: Alter>(conn: &mut Connection<S>, text: &str) -> Result<Vec<Row>, DatabaseFault>
    ensures shown { IfOk result (λ rows. IsShown (state S.Store conn.old) (state S.Store conn.new)
        text.now rows.items) }
    ensures fault { IfErr result (FailsToAnswer (state S.Store conn.old) (state S.Store conn.new)
        text.now []) }
{
    match conn.query_all(text, &[]) {
        Ok(rows) => Ok(rows),
        Err(error) => Err(writing_fault(&error)),
    }
}

/// The rows of a listing. Faults: `CannotWrite` if the database can't be read, `NoMemory`.
pub fn listed<S: Alter>(
    collection: &mut Collection<S>,
    listing: Listing,
) -> Result<Vec<Row>, DatabaseFault>
    ensures listed { IfOk result (λ rows. IsListed (state S.Store collection.old.conn)
        (state S.Store collection.new.conn) listing rows.items) }
    ensures fault { IfErr result (FailsToAnswer (state S.Store collection.old.conn)
        (state S.Store collection.new.conn) (listing_text listing) []) }
{
    shown(&mut collection.conn, listing_text(listing))
}
