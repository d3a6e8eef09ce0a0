//! Tests of images in memory that are collected: their rows as text, and in a database in memory. Expected values are written by
//! hand; digests are those that `sha256sum` prints.
#![tactic(auto)]

#[cfg(test)]
mod database;
#[cfg(test)]
mod expected;
#[cfg(test)]
mod rows;
#[cfg(test)]
mod stored;
