//! [`PlainVolume`], a plain, slow program in memory that is proved to answer each call, and to change the volume, exactly as the
//! definitions of `hfs_model` say. It shows that these can be met, and tests compare against it.
#![tactic(auto)]

mod bytes;
mod changes;
mod entries;
mod plain_volume;
mod reading;

pub use plain_volume::PlainVolume;
