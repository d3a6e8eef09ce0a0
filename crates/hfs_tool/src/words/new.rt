//! The word `new`: a new, empty volume.

use crate::places::{FILE, ImageWords, NOW};
use crate::saving::{save, tell};
use crate::word::Word;
use clap::ArgMatches;
use hfs_commands::{Fault, Status};
use hfs_console::{Argument, Declaration, NoValue, Takes, WordsFault};
use hfs_format::{FormatPlan, PlannedImage, blocks_of, chosen_nodes};
use std::alloc::Global;
use std::sync::Wait;
use std::thread::Threads;

/// The volume's name.
const NAME: Argument = Argument {
    name: "NAME",
    takes: Takes::AnyText,
    help: "The volume's name, 1 to 27 characters",
    excludes: &[],
};

/// How many blocks it has.
const BLOCKS: Argument = Argument {
    name: "BLOCKS",
    takes: Takes::Text,
    help: "The size, in blocks of 512 bytes, 8 to 4194304; or 800K or 1440K",
    excludes: &[],
};

/// What is printed if the blocks are no number.
const NO_BLOCKS: NoValue = NoValue("<BLOCKS>: a number of blocks, or 800K, or 1440K");

/// How many nodes its catalog has.
const NODES: Argument = Argument {
    name: "NODES",
    takes: Takes::MaybeNumber,
    help: "Nodes of the catalog, at least 2; drNmAlBlks / 128 if left out",
    excludes: &[],
};

/// How many nodes its extents file has.
const EXTENTS: Argument = Argument {
    name: "EXTENTS",
    takes: Takes::MaybeNumber,
    help: "Nodes of the extents file, at least 1; drNmAlBlks / 128 if left out",
    excludes: &[],
};

const COMMAND: Declaration = Declaration {
    name: "new",
    about: "Makes a new, empty volume",
    usage: None,
    after_help: None,
    arguments: &[FILE, NAME, BLOCKS, NODES, EXTENTS, NOW],
};

/// `new FILE NAME BLOCKS [NODES] [EXTENTS] [--now N]`.
#[derive(Clone, Copy)]
pub struct New<'a> {
    /// The path of the file, whose contents are replaced.
    file: &'a str,
    /// The volume's name.
    name: &'a str,
    /// How many logical blocks of 512 bytes it has.
    blocks: u32,
    /// How many nodes the catalog file has.
    catalog_nodes: u32,
    /// How many nodes the extents file has.
    extents_nodes: u32,
    /// The moment when it is made, in seconds since midnight, 1 January 1904.
    now: u32,
}

impl<'a> Word<'a> for New<'a> {
    const DECLARATION: Declaration = COMMAND;

    fn read(_alloc: Global, matches: &ArgMatches<'a>) -> Result<New<'a>, WordsFault> {
        let blocks = blocks_in(matches)?;
        Ok(New {
            file: FILE.text(matches)?,
            name: NAME.text(matches)?,
            blocks,
            catalog_nodes: nodes_in(NODES, 2, blocks, matches)?,
            extents_nodes: nodes_in(EXTENTS, 1, blocks, matches)?,
            now: NOW.number(matches)?,
        })
    }

    fn looked_at(&self) -> Option<ImageWords<'a>> {
        None
    }

    fn obey<T: Threads + Wait + Sync>(
        &self,
        rt: &HostRuntime,
        _threads: &T,
    ) -> Result<u8, Fault<'a>> {
        write_new(rt, self)
    }
}

/// How many blocks are asked for.
fn blocks_in(matches: &ArgMatches<'_>) -> Result<u32, NoValue> {
    match blocks_of(BLOCKS.text(matches)?) {
        Some(blocks) => Ok(blocks),
        None => Err(NO_BLOCKS),
    }
}

/// How many nodes are asked for, or are chosen for this many blocks if none are.
fn nodes_in(
    argument: Argument,
    least: u32,
    blocks: u32,
    matches: &ArgMatches<'_>,
) -> Result<u32, NoValue> {
    match argument.given_number(matches)? {
        Some(nodes) => Ok(nodes),
        None => Ok(chosen_nodes(least, blocks)),
    }
}

/// Writes a new volume to its file. If the plan is refused, the file is left as it was.
fn write_new<'a>(rt: &HostRuntime, volume: &New<'a>) -> Result<u8, Fault<'a>> {
    let Ok(name) = Vec::from_slice(rt.alloc(), volume.name.as_bytes()) else {
        return Err(Fault::NoMemory);
    };
    let plan = FormatPlan {
        name,
        blocks: volume.blocks,
        extents_nodes: volume.extents_nodes,
        catalog_nodes: volume.catalog_nodes,
        now: volume.now,
    };
    match PlannedImage::of(&plan) {
        Ok(image) => {
            let leftover = save(rt, volume.file, &image)?;
            tell(rt, &leftover);
            Ok(Status::Done.number())
        }
        Err(fault) => Err(Fault::of_format(fault)),
    }
}
