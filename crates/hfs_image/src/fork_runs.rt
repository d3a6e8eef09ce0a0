//! Where the bytes of forks lie, by the needed blocks of an image.
ghost use Rattle.std.specs.Prelude.{◌≡◌, ℕ, List, Option, ◌/◌, IfErr, IfOk};
ghost use Rattle.hfs_blocks.specs.Blocks.{AreRunsWithin};
ghost use Rattle.hfs_check.specs.Parts.{mdb_in};
ghost use Rattle.hfs_check.specs.Sound.{AreBlocksSound};
ghost use Rattle.hfs_check.specs.Trees.{HasTrees};
ghost use Rattle.hfs_source.specs.Sparse.{sparse};
ghost use Rattle.hfs_image.specs.ForkRuns.{AreRunsNamed, IsForkBytes, RefusesForks};
ghost use Rattle.hfs_image.specs.Forks.{AreForksIn, IsForkIn, OfFork, OfForkOf};
ghost use Rattle.hfs_image.specs.Opened.{IsOpenedOf};
ghost use Rattle.hfs_model.specs.declared.call.Fork.TheVariants.{DataFork, ResFork};

use crate::forks::{RecordedFork, find_file, kind_runs};
use crate::opening::NeededVolume;
use hfs_blocks::Run;
use hfs_fields::FileRecord;
use hfs_model::Reply;
use hfs_space::ForkKind;
use std::alloc::{AllocError, Global};

/// Where the bytes of a fork lie: the first ones in the blocks of these runs.
#[derive(Drop)]
pub struct ForkRuns {
    /// The runs, in order.
    pub runs: Vec<Run>,
    /// How many bytes the fork has.
    pub length: u32,
}

/// Where the bytes of both forks of a file lie.
#[derive(Drop)]
pub struct FileRuns {
    pub data: ForkRuns,
    pub resource: ForkRuns,
}

/// Where the bytes of a file's fork lie, found in the blocks that were read.
fn runs_of_kind(
    alloc: Global,
    volume: &NeededVolume,
    fork: &RecordedFork<'_>,
) -> Result<ForkRuns, AllocError>
    requires sound { AreBlocksSound volume.now.count (sparse volume.now.read) }
    requires directory { volume.now.sound.mdb ≡ mdb_in (sparse volume.now.read) }
    requires trees { HasTrees volume.now.count (sparse volume.now.read) volume.now.sound.trees }
    requires fork { IsForkIn (sparse volume.now.read) fork.now.file fork.now.kind
        fork.now.fields.now }
    ensures within { IfOk result (λ found. AreRunsWithin found.runs.items 4294967296) }
    ensures bytes { (known : Option (List ℕ)) → IfOk result (λ found.
        OfFork known volume.now.count volume.now.read fork.now.file fork.now.kind
        fork.now.fields.now (IsForkBytes known found)) }
{
    let runs = kind_runs(alloc, volume, fork)?;
    let length = fork.fields.length;
    Ok(ForkRuns { runs, length })
}

/// Where the bytes of both forks of a file lie.
#[tactic(auto, using(crate::proofs::Named::data_sound, crate::proofs::Named::resource_sound))]
fn runs_of_file(
    alloc: Global,
    volume: &NeededVolume,
    file: &FileRecord,
) -> Result<FileRuns, AllocError>
    requires sound { AreBlocksSound volume.now.count (sparse volume.now.read) }
    requires directory { volume.now.sound.mdb ≡ mdb_in (sparse volume.now.read) }
    requires trees { HasTrees volume.now.count (sparse volume.now.read) volume.now.sound.trees }
    requires forks { AreForksIn (sparse volume.now.read) file.now }
    ensures data_within { IfOk result (λ found. AreRunsWithin found.data.runs.items 4294967296) }
    ensures within { IfOk result (λ found. AreRunsWithin found.resource.runs.items 4294967296) }
    ensures data_bytes { (known : Option (List ℕ)) → IfOk result (λ found.
        OfForkOf known volume.now.count volume.now.read file.now DataFork
        (IsForkBytes known found.data)) }
    ensures bytes { (known : Option (List ℕ)) → IfOk result (λ found.
        OfForkOf known volume.now.count volume.now.read file.now ResFork
        (IsForkBytes known found.resource)) }
{
    let data_fork = RecordedFork {
        file: file.id,
        kind: ForkKind::Data,
        fields: &file.data,
    };
    let data = runs_of_kind(alloc, volume, &data_fork)?;
    let resource_fork = RecordedFork {
        file: file.id,
        kind: ForkKind::Resource,
        fields: &file.resource,
    };
    let resource = runs_of_kind(alloc, volume, &resource_fork)?;
    Ok(FileRuns { data, resource })
}

/// Where the bytes of both forks of the folder's file of that name lie, in an image that was opened this way; or what a call that
/// reads a fork answers if there is no such file: -37, -120 or -43. Nothing is read. Error: memory was refused.
pub(crate) fn opened_runs(
    alloc: Global,
    volume: &NeededVolume,
    dir: u32,
    name: &[u8],
) -> Result<Result<FileRuns, Reply>, AllocError>
    requires { (known : Option (List ℕ)) × IsOpenedOf known volume.now.count volume.now }
    ensures data_within { IfOk result (λ told. IfOk told
        (λ found. AreRunsWithin found.data.runs.items 4294967296)) }
    ensures within { IfOk result (λ told. IfOk told
        (λ found. AreRunsWithin found.resource.runs.items 4294967296)) }
    ensures data_fork { (known : Option (List ℕ)) (len : ℕ) → len / 512 ≡ volume.now.count
        → IsOpenedOf known volume.now.count volume.now → IfOk result (λ told. IfOk told
        (λ found. AreRunsNamed known len dir name.now DataFork found.data)) }
    ensures resource_fork { (known : Option (List ℕ)) (len : ℕ) → len / 512 ≡ volume.now.count
        → IsOpenedOf known volume.now.count volume.now → IfOk result (λ told. IfOk told
        (λ found. AreRunsNamed known len dir name.now ResFork found.resource)) }
    ensures unread { (known : Option (List ℕ)) (len : ℕ) → len / 512 ≡ volume.now.count
        → IsOpenedOf known volume.now.count volume.now
        → IfOk result (λ told. IfErr told (RefusesForks known len dir name.now)) }
{
    let file = match find_file(volume, dir, name) {
        Ok(file) => file,
        Err(reply) => return Ok(Err(reply)),
    };
    let found = runs_of_file(alloc, volume, &file)?;
    Ok(Ok(found))
}
