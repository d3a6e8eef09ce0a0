//! Tests of how a list of a host's items is placed on a mounted volume, and where their forks then lie. Expected values are
//! written by hand.
#![tactic(auto)]

#[cfg(test)]
mod fork_places;
#[cfg(test)]
mod items;
#[cfg(test)]
mod placing;
#[cfg(test)]
mod put_image;
