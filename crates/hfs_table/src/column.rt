//! The columns of the table.
ghost use Rattle.std.specs.Prelude.{◌≡◌};
ghost use Rattle.hfs_table.specs.Columns.{column_name};

/// A column of the table.
#[derive(Clone, Copy)]
pub enum Column {
    Path,
    Kind,
    Id,
    Parent,
    Type,
    Creator,
    Flags,
    Locked,
    FileId,
    Created,
    Modified,
    Backup,
    Items,
    DataBytes,
    ResourceBytes,
    Finder,
}

/// The columns after that of the path, which comes first.
pub(crate) const BEHIND_PATH: [Column; 15] = [
    Column::Kind,
    Column::Id,
    Column::Parent,
    Column::Type,
    Column::Creator,
    Column::Flags,
    Column::Locked,
    Column::FileId,
    Column::Created,
    Column::Modified,
    Column::Backup,
    Column::Items,
    Column::DataBytes,
    Column::ResourceBytes,
    Column::Finder,
];

/// Of these, the columns before that of a file's ID, those between it and that of the number of a folder's items, and those after
/// it.
pub(crate) const BEFORE_FILE_ID: [Column; 7] = [
    Column::Kind,
    Column::Id,
    Column::Parent,
    Column::Type,
    Column::Creator,
    Column::Flags,
    Column::Locked,
];

pub(crate) const DATES: [Column; 3] = [Column::Created, Column::Modified, Column::Backup];

pub(crate) const BEHIND_ITEMS: [Column; 3] = [
    Column::DataBytes,
    Column::ResourceBytes,
    Column::Finder,
];

/// The name of a column.
pub(crate) fn column_name(column: Column) -> &'static str
    ensures { result.now ≡ column_name column }
{
    match column {
        Column::Path => "path",
        Column::Kind => "kind",
        Column::Id => "id",
        Column::Parent => "parent",
        Column::Type => "type",
        Column::Creator => "creator",
        Column::Flags => "flags",
        Column::Locked => "locked",
        Column::FileId => "file_id",
        Column::Created => "created",
        Column::Modified => "modified",
        Column::Backup => "backup",
        Column::Items => "items",
        Column::DataBytes => "data_bytes",
        Column::ResourceBytes => "resource_bytes",
        Column::Finder => "finder",
    }
}
