//! Where a fault stands.

ghost use Rattle.std.specs.Prelude.{◌≡◌, IfOk};

use crate::memory::NoMemory;
use crate::texts::{Blob, Name};
use std::alloc::Global;

/// A place in a file. A column or a field that does not apply is empty.
#[derive(Drop)]
pub struct Place {
    /// The file's name.
    pub file: Name,
    /// The number of the record, counted from 1; 0 is the file as a whole.
    pub row: u64,
    /// The column's name.
    pub column: Name,
    /// The field.
    pub field: Blob,
}

impl Place {
    /// The place of these parts, which are copied.
    pub fn new(
        alloc: Global,
        file: &str,
        row: u64,
        column: &str,
        field: &[u8],
    ) -> Result<Place, NoMemory>
        ensures value { IfOk result (λ place. place ≡ record {
          file = file.now;
          row = row;
          column = column.now;
          field = field.now;
        }) }
    {
        let file = String::from_str(alloc, file)?;
        let column = String::from_str(alloc, column)?;
        let field = Vec::from_slice(alloc, field)?;
        Ok(Place {
            file: Name::new(file),
            row,
            column: Name::new(column),
            field: Blob::new(field),
        })
    }
}
