//! Tests of a volume that workers and viewers share: small volumes, calls whose results are written by hand, and gates that wait
//! for at most 100,000 turns.
#![tactic(auto)]

#[cfg(test)]
mod beside;
#[cfg(test)]
mod closing;
#[cfg(test)]
mod forks;
#[cfg(test)]
mod meeting;
#[cfg(test)]
mod passes;
#[cfg(test)]
mod sharing;
#[cfg(test)]
mod telling;
#[cfg(test)]
mod unread;
#[cfg(test)]
mod waiting;
