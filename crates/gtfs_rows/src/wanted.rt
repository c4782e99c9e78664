//! The columns that are wanted of a sheet.

ghost use Rattle.std.specs.Prelude.{◌≡◌, ◌≢◌, ◌++◌, ◌∷◌, [], All, OnOk, OnErr};

use crate::memory::NoMemory;
use crate::texts::Name;
use std::alloc::Global;
use std::marker::Model;

/// A wanted column: its name, and whether a sheet has to have it.
#[derive(Drop)]
pub struct Column {
    pub name: Name,
    pub required: bool,
}

/// The wanted columns, in order, each with its name and whether a sheet has to have it.
#[derive(Drop)]
pub struct Wanted {
    columns: Vec<Column>,
    alloc: Global,
}

impl Model for Wanted {
    ghost use Rattle.std.specs.Prelude.{List};
    ghost use Rattle.gtfs_rows.specs.declared.wanted.Column.{Column};

    ghost Value = { List Column };

    ghost view = { λ wanted. wanted.columns.items };
}

impl Wanted {
    /// No columns. It takes no memory.
    pub fn new(alloc: Global) -> Wanted
        ensures value { result ≡ [] }
    {
        Wanted {
            columns: Vec::new(alloc),
            alloc,
        }
    }

    /// Appends a column whose name is not wanted yet.
    pub fn add(&mut self, name: &str, required: bool) -> Result<(), NoMemory>
        requires fresh { All (λ column. column.name ≢ name.now) self.old }
        ensures ok { OnOk result
            (self.new ≡ self.old ++ record { name = name.now; required = required } ∷ []) }
        ensures err { OnErr result (self.new ≡ self.old) }
    {
        let name = String::from_str(self.alloc, name)?;
        self.columns.push(Column {
            name: Name::new(name),
            required,
        })?;
        Ok(())
    }

    /// The columns, in order.
    pub(crate) fn columns(&self) -> &[Column]
        ensures value { result.now ≡ self.now }
    {
        self.columns.as_slice()
    }
}
