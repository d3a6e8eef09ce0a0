//! What viewers read while the writer works: two copies of a volume's rows, each with the list of changes that it stands for.
//! A change goes into one copy while readers have the other, and everything that waits is shown in one step. No reader waits. If
//! nobody reads, only the list is kept.
//!
//! What the workers share: a volume with its journal, which has each call with its worker and its number, and the list of its
//! changes that viewers read.
#![tactic(auto)]

mod absorbs;
mod closed;
mod copies;
mod crossing;
mod desk;
mod done;
mod front;
mod guard;
mod item;
mod laws;
mod locked;
mod pair;
mod parts;
mod pass;
mod published;
mod rule;
mod seat;
mod session;
mod shared;
mod told;
mod unread;
mod viewer;
mod workers;

pub use closed::Closed;
pub use crossing::may_cross;
pub use desk::CallFault;
pub use done::{Done, RunFault};
pub use guard::Guard;
pub use hfs_model::Entry;
pub use laws::unwritten_fork_laws;
pub use locked::Locked;
pub use pair::{Pair, PairFault};
pub use parts::{Parts, StartFault, Why};
pub use pass::Pass;
pub use session::Session;
pub use shared::Shared;
pub use told::Told;
pub use viewer::{ViewFault, Viewer};
pub use workers::{Gate, run_workers};
