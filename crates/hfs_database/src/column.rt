//! The columns of the lines.
ghost use Rattle.std.specs.Prelude.{◌≡◌, map};
ghost use Rattle.hfs_database.specs.Columns.{columns_of, end_columns, label_name, told_column};

use crate::Table;

/// Where the value of a column comes from.
#[derive(Clone, Copy)]
pub(crate) enum Origin {
    /// The path of the image that came last.
    ImagePath,
    /// The digest of the image that came last.
    ImageDigest,
    /// The number of the volume that came last.
    VolumeNumber,
    /// This place of the row itself.
    Row(usize),
}

/// What a line says it is.
#[derive(Clone, Copy)]
pub(crate) enum Label {
    /// A row of this table.
    Row(Table),
    /// An image's end.
    End,
}

/// A column of a line.
#[derive(Clone, Copy)]
pub(crate) struct Column {
    /// Its name.
    pub(crate) name: &'static str,
    /// Where its value comes from.
    pub(crate) origin: Origin,
}

/// The columns of an image.
pub(crate) const IMAGE_COLUMNS: [Column; 4] = [
    Column {
        name: "path",
        origin: Origin::Row(0),
    },
    Column {
        name: "bytes",
        origin: Origin::Row(1),
    },
    Column {
        name: "sha256",
        origin: Origin::Row(2),
    },
    Column {
        name: "program",
        origin: Origin::Row(3),
    },
];

/// The columns of a volume: the keys of its image, and its own.
pub(crate) const VOLUME_COLUMNS: [Column; 14] = [
    Column {
        name: "image_path",
        origin: Origin::ImagePath,
    },
    Column {
        name: "image_sha256",
        origin: Origin::ImageDigest,
    },
    Column {
        name: "number",
        origin: Origin::Row(0),
    },
    Column {
        name: "how",
        origin: Origin::Row(1),
    },
    Column {
        name: "first_byte",
        origin: Origin::Row(2),
    },
    Column {
        name: "bytes",
        origin: Origin::Row(3),
    },
    Column {
        name: "name",
        origin: Origin::Row(4),
    },
    Column {
        name: "created",
        origin: Origin::Row(5),
    },
    Column {
        name: "modified",
        origin: Origin::Row(6),
    },
    Column {
        name: "backup",
        origin: Origin::Row(7),
    },
    Column {
        name: "blocks",
        origin: Origin::Row(8),
    },
    Column {
        name: "block_bytes",
        origin: Origin::Row(9),
    },
    Column {
        name: "free_blocks",
        origin: Origin::Row(10),
    },
    Column {
        name: "verdict",
        origin: Origin::Row(11),
    },
];

/// The columns of an item: the keys of its image and of its volume, and its own.
pub(crate) const ITEM_COLUMNS: [Column; 25] = [
    Column {
        name: "image_path",
        origin: Origin::ImagePath,
    },
    Column {
        name: "image_sha256",
        origin: Origin::ImageDigest,
    },
    Column {
        name: "volume_number",
        origin: Origin::VolumeNumber,
    },
    Column {
        name: "number",
        origin: Origin::Row(0),
    },
    Column {
        name: "path",
        origin: Origin::Row(1),
    },
    Column {
        name: "bag_path",
        origin: Origin::Row(2),
    },
    Column {
        name: "kind",
        origin: Origin::Row(3),
    },
    Column {
        name: "cnid",
        origin: Origin::Row(4),
    },
    Column {
        name: "parent",
        origin: Origin::Row(5),
    },
    Column {
        name: "type",
        origin: Origin::Row(6),
    },
    Column {
        name: "creator",
        origin: Origin::Row(7),
    },
    Column {
        name: "flags",
        origin: Origin::Row(8),
    },
    Column {
        name: "locked",
        origin: Origin::Row(9),
    },
    Column {
        name: "file_id",
        origin: Origin::Row(10),
    },
    Column {
        name: "created",
        origin: Origin::Row(11),
    },
    Column {
        name: "modified",
        origin: Origin::Row(12),
    },
    Column {
        name: "backup",
        origin: Origin::Row(13),
    },
    Column {
        name: "items",
        origin: Origin::Row(14),
    },
    Column {
        name: "data_bytes",
        origin: Origin::Row(15),
    },
    Column {
        name: "resource_bytes",
        origin: Origin::Row(16),
    },
    Column {
        name: "finder",
        origin: Origin::Row(17),
    },
    Column {
        name: "data_sha256",
        origin: Origin::Row(18),
    },
    Column {
        name: "resource_sha256",
        origin: Origin::Row(19),
    },
    Column {
        name: "data_verdict",
        origin: Origin::Row(20),
    },
    Column {
        name: "resource_verdict",
        origin: Origin::Row(21),
    },
];

/// The columns of an image's end: its keys, and whether all its rows came.
pub(crate) const END_COLUMNS: [Column; 3] = [
    Column {
        name: "image_path",
        origin: Origin::ImagePath,
    },
    Column {
        name: "image_sha256",
        origin: Origin::ImageDigest,
    },
    Column {
        name: "whole",
        origin: Origin::Row(0),
    },
];

/// What a label says.
pub(crate) fn label_name(label: Label) -> &'static str
    ensures { result.now ≡ label_name label }
{
    match label {
        Label::Row(Table::Image) => "image",
        Label::Row(Table::Volume) => "volume",
        Label::Row(Table::Item) => "item",
        Label::End => "end",
    }
}

/// The columns of a table's rows.
#[tactic(auto, unfolding(crate::specs::Columns::image_columns, crate::specs::Columns::volume_columns, crate::specs::Columns::item_columns))]
pub(crate) fn columns_of(table: Table) -> &'static [Column]
    ensures { map told_column result.now ≡ columns_of table }
{
    match table {
        Table::Image => &IMAGE_COLUMNS,
        Table::Volume => &VOLUME_COLUMNS,
        Table::Item => &ITEM_COLUMNS,
    }
}

/// The columns of an image's end.
#[tactic(auto, unfolding(crate::specs::Columns::end_columns))]
pub(crate) fn end_columns() -> &'static [Column]
    ensures { map told_column result.now ≡ end_columns }
{
    &END_COLUMNS
}
