//! What may go to other threads.
use crate::pair::Pair;
use crate::published::Published;
use crate::told::Told;
use crate::viewer::Viewer;

fn crosses<T: Send>() {}

fn shares<T: Sync>() {}

/// Pairs, viewers and `Told` lists may go to other threads, and several threads may read a copy at once. Does nothing: that it
/// compiles is what it says.
pub fn may_cross() {
    crosses::<Published>();
    shares::<Published>();
    crosses::<Viewer>();
    crosses::<Told>();
    crosses::<Pair>();
}
