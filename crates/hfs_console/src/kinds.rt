//! What a file without an HFS volume is, for someone at a terminal.

use crate::{Beside, Glance, Kind, Piece};
use hfs_commands::{OpenedFile, Window, open_part};
use hfs_fields::{u16_at, u32_at};
use hfs_source::PlacedBytes;
use std::fs;
use std::io::{IsTerminal, Read, Seek};
use std::path::Path;

/// How many bytes come before the data fork of a MacBinary file.
const HEAD: u64 = 128;

/// How many bytes the trailer of a disk image has, which is at the end of the file.
const TRAILER: u64 = 512;

/// How an AppleDouble file begins.
const APPLE_DOUBLE: u32 = 0x0005_1607;

/// The kind of its part that is a resource fork.
const RESOURCE_FORK: u32 = 2;

/// The kind of its part that has the Finder's bytes.
const FINDER_BYTES: u32 = 9;

/// What there is for a file without an AppleDouble file.
const NOTHING: Beside = Beside {
    creator: [0; 16],
    types: [0; 16],
};

/// A part of a file.
type Part<F> = Window<OpenedFile<F>>;

/// The bytes of a file's part from a place on, with zeros in place of those that it doesn't have or that can't be read.
fn piece_at<F: Read + Seek>(part: &mut Part<F>, place: u64) -> Piece {
    let mut piece = [0; 16];
    let count = part.range.len.saturating_sub(place).min(16) as usize;
    if let Some(place) = part.range.start.checked_add(place) {
        // What can't be read says nothing.
        let _read = PlacedBytes::read_at(&mut part.source, place, &mut piece[..count]);
    }
    piece
}

/// This many bytes, padded to a multiple of 128.
fn filled(len: u64) -> u64 {
    len.div_ceil(HEAD).saturating_mul(HEAD)
}

/// Where the resource fork of a MacBinary file begins: after both headers and the data fork.
fn resource_fork<F: Read + Seek>(part: &mut Part<F>) -> u64 {
    let lengths = piece_at(part, 83);
    let second = piece_at(part, 120);
    let before_data = HEAD.saturating_add(filled(u64::from(u16_at(&second, 0))));
    before_data.saturating_add(filled(u64::from(u32_at(&lengths, 0))))
}

/// The first types of the resources in the fork that begins at `fork`: its header says where the map is, and the map says where
/// the list of types is.
fn resource_types<F: Read + Seek>(part: &mut Part<F>, fork: u64) -> [u32; 16] {
    let header = piece_at(part, fork);
    let map = fork.saturating_add(u64::from(u32_at(&header, 4)));
    let places = piece_at(part, map.saturating_add(24));
    let list = map.saturating_add(u64::from(u16_at(&places, 0)));
    types_from(part, list.saturating_add(2))
}

/// The types of the entries of eight bytes from a place on.
fn types_from<F: Read + Seek>(part: &mut Part<F>, list: u64) -> [u32; 16] {
    let mut types = [0; 16];
    for i in 0..16 {
        let entry = piece_at(part, list.saturating_add(8 * i as u64));
        types[i] = u32_at(&entry, 0);
    }
    types
}

/// Where the part of this kind begins in an AppleDouble file, looking at the first sixteen of its parts; None if it has no such
/// part.
fn part_place<F: Read + Seek>(part: &mut Part<F>, kind: u32) -> Option<u64> {
    let head = piece_at(part, 24);
    let count = u16_at(&head, 0).min(16);
    for i in 0..count {
        let entry = piece_at(part, 26 + 12 * u64::from(i));
        if u32_at(&entry, 0) == kind {
            return Some(u64::from(u32_at(&entry, 4)));
        }
    }
    None
}

/// The creator in the Finder's bytes of an AppleDouble file, after the type; zeros if it has none.
fn creator_in<F: Read + Seek>(part: &mut Part<F>) -> Piece {
    match part_place(part, FINDER_BYTES) {
        Some(finder) => piece_at(part, finder.saturating_add(4)),
        None => NOTHING.creator,
    }
}

/// The first types of the resources in an AppleDouble file; zeros if it has none.
fn types_in<F: Read + Seek>(part: &mut Part<F>) -> [u32; 16] {
    match part_place(part, RESOURCE_FORK) {
        Some(fork) => resource_types(part, fork),
        None => NOTHING.types,
    }
}

/// What an AppleDouble file says about the file next to it; nothing if it is none.
fn beside_at<F: Read + Seek>(part: &mut Part<F>) -> Beside {
    let head = piece_at(part, 0);
    if u32_at(&head, 0) != APPLE_DOUBLE {
        return NOTHING;
    }
    Beside {
        creator: creator_in(part),
        types: types_in(part),
    }
}

/// What a file's part says about itself at its known places.
fn glance_at<F: Read + Seek>(part: &mut Part<F>, beside: Beside) -> Glance {
    let fork = resource_fork(part);
    let trailer = part.range.len.saturating_sub(TRAILER);
    Glance {
        first: piece_at(part, 0),
        creator: piece_at(part, 69),
        fork: piece_at(part, HEAD),
        directory: piece_at(part, 1_024),
        descriptor: piece_at(part, 32_769),
        trailer: piece_at(part, trailer),
        types: resource_types(part, fork),
        beside,
    }
}

/// Whether a regular file is at this path; what comes out of a pipe comes only once.
fn is_regular(rt: &HostRuntime, path: &str) -> bool {
    match fs::metadata(rt, path) {
        Ok(metadata) => metadata.is_file(),
        Err(_) => false,
    }
}

/// The path of the AppleDouble file of a file, whether it exists or not.
fn double_path(rt: &HostRuntime, path: &str) -> Option<String> {
    let Some(name) = Path::new(path).file_name() else {
        return None;
    };
    let Ok(double) = format!(in rt.alloc(); "._{name}") else {
        return None;
    };
    match Path::new(path).with_file_name(rt.alloc(), double.as_str()) {
        Ok(beside) => Some(beside.into_string()),
        Err(_) => None,
    }
}

/// What the AppleDouble file at this path says about the file next to it, if it exists.
fn beside_in(rt: &HostRuntime, path: &str) -> Beside {
    if !is_regular(rt, path) {
        return NOTHING;
    }
    match open_part(rt, path, Some(0)) {
        Ok(mut file) => beside_at(&mut file),
        Err(_) => NOTHING,
    }
}

/// What the AppleDouble file of the file at this path says. It says nothing about a volume inside the file.
fn beside_of(rt: &HostRuntime, path: &str, volume: Option<u64>) -> Beside {
    match volume {
        None | Some(0) => match double_path(rt, path) {
            Some(double) => beside_in(rt, double.as_str()),
            None => NOTHING,
        },
        Some(_) => NOTHING,
    }
}

/// What the file at this path is, or the volume with this number in it, if its bytes say, or those of its AppleDouble file. Only
/// a regular file is looked at.
fn kind_in(rt: &HostRuntime, path: &str, volume: Option<u64>) -> Option<Kind> {
    if !is_regular(rt, path) {
        return None;
    }
    match open_part(rt, path, volume) {
        Ok(mut part) => {
            let beside = beside_of(rt, path, volume);
            Kind::of(&glance_at(&mut part, beside))
        }
        Err(_) => None,
    }
}

/// Prints on standard error what the file at this path is, or the volume with this number in it, if that is a terminal and the
/// file's bytes say.
pub fn tell_kind(rt: &HostRuntime, path: &str, volume: Option<u64>) {
    if !rt.stderr().is_terminal() {
        return;
    }
    if let Some(kind) = kind_in(rt, path, volume) {
        // If the terminal takes nothing more, the program goes on.
        let _printed = eprintln!(rt; "it looks like {kind}");
    }
}
