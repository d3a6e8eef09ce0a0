//! Tests of what no run of the program shows of mounted volumes: images that are refused and handed back, how many bytes were
//! written when saving fails, images of which two blocks were read, where the extents of forks are that were written, how many
//! blocks are changed then, and a record of a catalog that is replaced by a shorter one. Expected values are written by hand.
//! What calls answer is text in `tests/volumes/lists`, what mounting and repair find in `tests/volumes/images.txt`.
#![tactic(auto)]

#[cfg(test)]
mod extents;
#[cfg(test)]
mod mounting;
#[cfg(test)]
mod read_blocks;
#[cfg(test)]
mod saving;
#[cfg(test)]
mod shorter;
