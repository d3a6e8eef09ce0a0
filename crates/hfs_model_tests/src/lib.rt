//! Tests of names, records and nodes, of what comes from a host and of what a bag says, of shared bytes, of the text of scripts,
//! and of what only the plain program can be asked for. Each code of each call, and worked lists of calls, are text in
//! `tests/volumes/lists`.
#![tactic(auto)]

#[cfg(test)]
mod bag_facts;
#[cfg(test)]
mod bags;
#[cfg(test)]
mod fixture;
#[cfg(test)]
mod forks;
#[cfg(test)]
mod incoming;
#[cfg(test)]
mod laid_forks;
#[cfg(test)]
mod names;
#[cfg(test)]
mod node_bytes;
#[cfg(test)]
mod pieces;
#[cfg(test)]
mod records;
#[cfg(test)]
mod scripts;
#[cfg(test)]
mod shared;
#[cfg(test)]
mod sources;
#[cfg(test)]
mod stories;
