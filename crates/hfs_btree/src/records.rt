//! A node's records in memory.
ghost use Rattle.std.specs.Prelude.{◌≡◌, ◌+◌, ◌<◌, ◌≤◌, ◌==◌, [], ◌∷◌, ◌++◌, OnOk, OnErr, IfOk, IfErr, map, length, take, drop, insert, remove, slice_set, slice_index_or};

use std::alloc::{AllocError, AllocFailed, Global};
use std::marker::Model;
use std::mem;

/// The records of a node, each a list of bytes. They may be more, or longer, than a node has room for.
#[derive(Debug, Drop)]
pub struct Records {
    items: Vec<Vec<u8>>,
}

impl Model for Records {
    ghost use Rattle.std.specs.Prelude.{List, ℕ, map};

    ghost Value = { List (List ℕ) };

    ghost view = { λ a. map (λ r. r.items) a.items.items };
}

impl Records {
    /// No records. Takes no memory.
    pub fn new(alloc: Global) -> Records
        ensures { result ≡ [] }
    {
        Records {
            items: Vec::new(alloc),
        }
    }

    /// The records of a list. Takes no memory.
    pub fn from_vec(records: Vec<Vec<u8>>) -> Records
        ensures { result ≡ map (λ r. r.items) records.items }
    {
        Records { items: records }
    }

    /// The list of the records. Takes no memory.
    pub fn into_vec(self) -> Vec<Vec<u8>>
        ensures { map (λ r. r.items) result.items ≡ self }
    {
        let Records { items } = self;
        items
    }

    /// How many records there are.
    pub fn len(&self) -> usize
        ensures { result ≡ length self.now }
    {
        self.items.len()
    }

    /// Whether there are no records.
    pub fn is_empty(&self) -> bool
        ensures { result ≡ (length self.now == 0) }
    {
        self.len() == 0
    }

    /// Record `i`, counted from 0.
    pub fn record(&self, i: usize) -> &[u8]
        requires { i < length self.now }
        ensures { result.now ≡ slice_index_or self.now i [] }
    {
        let record = &self.items[i];
        record.as_slice()
    }

    /// Appends a record. If memory is refused, nothing changes, and the record is handed back.
    pub fn push(&mut self, bytes: Vec<u8>) -> Result<(), AllocFailed<Vec<u8>>>
        ensures ok { OnOk result (self.new ≡ self.old ++ bytes.items ∷ []) }
        ensures err { OnErr result (self.new ≡ self.old) }
        ensures record_returned { IfErr result (λ e. e.value ≡ bytes) }
    {
        self.items.push(bytes)
    }

    /// Inserts a record at place `at`; those from there on move up by one. If memory is refused, nothing changes, and the record
    /// is handed back.
    #[tactic(auto, using(crate::proofs::Lists::record_edits))]
    pub fn insert(&mut self, at: usize, bytes: Vec<u8>) -> Result<(), AllocFailed<Vec<u8>>>
        requires { at ≤ length self.old }
        ensures ok { OnOk result (self.new ≡ insert self.old at bytes.items) }
        ensures err { OnErr result (self.new ≡ self.old) }
        ensures record_returned { IfErr result (λ e. e.value ≡ bytes) }
    {
        self.items.insert(at, bytes)
    }

    /// Removes and returns the record at place `at`; those after it move down by one.
    #[tactic(auto, using(crate::proofs::Lists::record_edits))]
    pub fn remove(&mut self, at: usize) -> Vec<u8>
        requires { at < length self.old }
        ensures taken { result.items ≡ slice_index_or self.old at [] }
        ensures rest { self.new ≡ remove self.old at }
    {
        self.items.remove(at)
    }

    /// Puts a record in place of the one at `at`, which is returned.
    #[tactic(auto, using(crate::proofs::Lists::record_edits))]
    pub fn replace(&mut self, at: usize, bytes: Vec<u8>) -> Vec<u8>
        requires { at < length self.old }
        ensures taken { result.items ≡ slice_index_or self.old at [] }
        ensures rest { self.new ≡ slice_set self.old at bytes.items }
    {
        mem::replace(&mut self.items[at], bytes)
    }

    /// Cuts the records in two, and returns those from place `at` on. If memory is refused, nothing changes.
    #[tactic(auto, using(crate::proofs::Lists::record_edits))]
    pub fn split_off(&mut self, at: usize) -> Result<Records, AllocError>
        requires { at ≤ length self.old }
        ensures first { OnOk result (self.new ≡ take at self.old) }
        ensures second { IfOk result (λ tail. tail ≡ drop at self.old) }
        ensures err { OnErr result (self.new ≡ self.old) }
    {
        let items = self.items.split_off(at)?;
        Ok(Records { items })
    }
}
