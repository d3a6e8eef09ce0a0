//! Items that are put.
use hfs_encodings::FileDates;
use hfs_fields::Name;
use hfs_fixtures::FixtureFault;
use hfs_model::ItemKind;
use hfs_put_plan::{ItemFacts, Placing, PutItem};

/// A new item of that name, with this many bytes in its forks.
pub(crate) fn item(
    parent: Option<usize>,
    kind: ItemKind,
    name: &[u8],
    lens: (u32, u32),
) -> Result<PutItem, FixtureFault> {
    let Some(name) = Name::new(name) else {
        return Err(FixtureFault::Unsound);
    };
    Ok(PutItem {
        parent,
        kind,
        name,
        placing: Placing::New,
        facts: ItemFacts {
            finder: [0; 32],
            locked: false,
            dates: FileDates {
                created: 1,
                modified: 2,
                backup: 3,
            },
        },
        data_len: lens.0,
        resource_len: lens.1,
    })
}
