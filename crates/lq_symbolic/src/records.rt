//! The list of the open records.

ghost use Rattle.std.specs.Prelude.{◌≡◌, ◌<◌, ◌≤◌, ℕ, [], length, insert, slice_get, slice_set, Some, IfOk, OnOk};
ghost use Rattle.lq_symbolic.specs.declared.state.Opened.{Opened as OpenedRecord};

use crate::state::Opened;
use crate::value::SymValue;
use std::alloc::{AllocError, Global};
use std::marker::Model;

/// The open records, in order of class. Contracts see the list of them, and its fields are written in place.
#[derive(Drop)]
pub struct OpenRecords {
    list: Vec<Opened>,
}

impl Model for OpenRecords {
    ghost use Rattle.std.specs.Prelude.{List};
    ghost use Rattle.lq_symbolic.specs.declared.state.Opened.{Opened};

    ghost Value = { List Opened };

    ghost view = { λ o. o.list.items };
}

impl OpenRecords {
    /// No record is open.
    pub fn new(alloc: Global) -> OpenRecords
        ensures { result ≡ [] }
    {
        OpenRecords {
            list: Vec::new(alloc),
        }
    }

    /// The records.
    pub fn as_slice(&self) -> &[Opened]
        ensures { result.now ≡ self.now }
    {
        self.list.as_slice()
    }

    /// The same records once more.
    pub fn copy(&self, alloc: Global) -> Result<OpenRecords, AllocError>
        ensures { IfOk result (λ copy. copy ≡ self.now) }
    {
        let mut list = Vec::with_capacity(alloc, self.list.len())?;
        let records = self.as_slice();
        for opened in records {
            list.push(opened.copy(alloc)?)?;
        }
        Ok(OpenRecords { list })
    }

    /// Puts a record at this place, in front of those from there on.
    pub fn insert(&mut self, at: usize, opened: Opened) -> Result<(), AllocError>
        requires { at ≤ length self.old }
        ensures { OnOk result (self.new ≡ insert self.old at opened) }
    {
        self.list.insert(at, opened)?;
        Ok(())
    }

    /// Puts a record in the place of another.
    pub fn set(&mut self, at: usize, opened: Opened)
        requires { at < length self.old }
        ensures { self.new ≡ slice_set self.old at opened }
    {
        self.list[at] = opened;
    }

    /// A field of the record at this place gets a value. Nothing changes where there is no such field.
    pub fn put(&mut self, at: usize, field: u32, value: SymValue)
        requires { at < length self.old }
        ensures { (o : OpenedRecord) → slice_get self.old at ≡ Some o
            → self.new ≡ slice_set self.old at (record o { fields = slice_set o.fields field value }) }
    {
        self.list[at].put(field, value);
    }
}
