//! Waiting for other threads, for at most 100,000 turns.
use std::sync::atomic::{AtomicU64, Ordering};
use std::thread;
use std::time::Duration;

/// Every thirty-second turn sleeps for a millisecond, the others yield.
fn pause(clock: &HostRuntime, turn: u32) {
    if turn % 32 == 31 {
        thread::sleep(clock, Duration::from_millis(1));
    } else {
        thread::yield_now();
    }
}

/// Waits until there are `wanted`, and returns whether there are.
pub fn waits_for(clock: &HostRuntime, count: &AtomicU64, wanted: u64) -> bool {
    for turn in 0..100_000 {
        if count.load(Ordering::SeqCst) >= wanted {
            return true;
        }
        pause(clock, turn);
    }
    false
}
