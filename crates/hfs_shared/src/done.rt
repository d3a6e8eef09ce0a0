//! What a worker has done.
use crate::Told;
use crate::desk::CallFault;
use crate::pass::Pass;
use hfs_model::{Call, Reply};

/// A job that was run: its pass as it is now, and the reply to each call that was made, with the list that was published then.
/// Without a fault, all its calls were made.
#[derive(Drop)]
pub struct Done {
    pub pass: Pass,
    pub replies: Vec<(Reply, Told)>,
    pub fault: Option<CallFault>,
}

/// Jobs that were not begun, because memory ran out.
#[derive(Drop)]
pub struct RunFault {
    pub jobs: Vec<(Pass, Vec<Call>)>,
}
