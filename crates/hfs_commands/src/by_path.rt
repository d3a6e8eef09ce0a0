//! The item that the text of a path leads to.
ghost use Rattle.std.specs.Prelude.{◌≡◌, IfOk};
ghost use Rattle.hfs_commands.specs.ByPath.{IsFilePathReply, IsPathReply, file_reply, is_folder_kind, tells_folder};
ghost use Rattle.hfs_source.specs.Images.{OfEach};

use hfs_image::SeenImage;
use hfs_items::refusal;
use hfs_model::{ItemKind, NOT_FOUND, Reply, Value};
use hfs_source::PlacedBlocks;
use hfs_texts::path_names;
use std::alloc::{AllocError, Global};

/// The reply about the item that a Mac path leads to, starting with the volume's name, in every image consistent with the bytes
/// read from the opened one: that to GetCatInfo, or to GetDirInfo for the root. A path that begins with `:` leaves the volume's
/// name out, and `:` is the root. -43 if the text is no path, leads nowhere or begins with another name; -120 if it goes through
/// a file. Fails only when out of memory.
#[tactic(auto, using(crate::proofs::PathReplies::by_names, crate::proofs::PathReplies::by_none))]
pub fn path_reply<S: PlacedBlocks + Drop>(
    alloc: Global,
    image: &SeenImage<S>,
    path: &str,
) -> Result<Reply, AllocError>
    ensures { IfOk result (λ reply. OfEach (S.Holds image.now) (IsPathReply path.now reply)) }
{
    let found = path_names(alloc, path.as_bytes())?;
    match found {
        Some(names) => Ok(image.item_at(names.as_slice())),
        None => Ok(refusal(NOT_FOUND)),
    }
}

fn is_folder_kind(kind: ItemKind) -> bool
    ensures { result ≡ is_folder_kind kind }
{
    match kind {
        ItemKind::Folder => true,
        ItemKind::File => false,
    }
}

/// Whether a value describes a folder.
fn tells_folder(value: &Value) -> bool
    ensures { result ≡ tells_folder value.now }
{
    match value {
        Value::One(info) => is_folder_kind(info.kind),
        _ => false,
    }
}

/// The same reply, but -43 if it describes a folder.
fn file_reply(reply: Reply) -> Reply
    ensures { result ≡ file_reply reply }
{
    if tells_folder(&reply.value) {
        return refusal(NOT_FOUND);
    }
    reply
}

/// As [`path_reply`], but -43 if the path leads to a folder, which has no forks.
#[tactic(auto, using(crate::proofs::PathReplies::of_file))]
pub fn file_path_reply<S: PlacedBlocks + Drop>(
    alloc: Global,
    image: &SeenImage<S>,
    path: &str,
) -> Result<Reply, AllocError>
    ensures { IfOk result (λ reply. OfEach (S.Holds image.now) (IsFilePathReply path.now reply)) }
{
    let reply = path_reply(alloc, image, path)?;
    Ok(file_reply(reply))
}
