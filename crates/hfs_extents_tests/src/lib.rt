//! Tests of forks that grow and shrink, on blocks by hand: records that are added to small extents trees and removed from them,
//! with all checks of the tree after each; which blocks are added, their bits, the extents, and the bytes and zeros over them.
#![tactic(auto)]

#[cfg(test)]
mod choices;
#[cfg(test)]
mod claims;
#[cfg(test)]
mod coming;
#[cfg(test)]
mod extents;
#[cfg(test)]
mod forks;
#[cfg(test)]
mod growing;
#[cfg(test)]
mod leaving;
#[cfg(test)]
mod trees;
#[cfg(test)]
mod wants;
#[cfg(test)]
mod written;
