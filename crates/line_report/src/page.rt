//! Rows that are gathered in memory.

ghost use Rattle.std.specs.Prelude.{◌≡◌, ◌++◌, [], IfErr, IfOk, OnOk, map};
ghost use Rattle.csv.specs.Writing.{default_writer, row_text};
ghost use Rattle.line_report.specs.Pages.{IsBetweenRows, page_text};
ghost use Rattle.line_report.specs.declared.fault.ReportFault.TheVariants as fault;

use crate::fault::ReportFault;
use csv::{Writer, WriterBuilder};
use std::alloc::Global;

/// Rows of one length, in the default form of `csv` with LF after each. A writer has a buffer of
/// 8 KiB, which is cleared when it is made, so many rows share one.
#[derive(Drop)]
pub struct Page {
    writer: Writer<Vec<u8>>,
}

impl Page {
    /// A page without rows. It takes no memory.
    pub fn new(alloc: Global) -> Page
        ensures none { page_text result ≡ [] }
        ensures between { IsBetweenRows result }
    {
        Page {
            writer: WriterBuilder::new().from_writer(Vec::new(alloc)),
        }
    }

    /// Adds a row of these fields, which are as many as in the rows before.
    ///
    /// `NoMemory` where memory runs out, and where they are more or fewer. Nothing is said of the
    /// page then.
    pub fn add(&mut self, fields: &[&[u8]]) -> Result<(), ReportFault>
        requires between { IsBetweenRows self.old }
        ensures between { OnOk result (IsBetweenRows self.new) }
        ensures added { OnOk result (page_text self.new
            ≡ page_text self.old ++ row_text default_writer (map (λ field. field.now) fields.now)) }
        ensures no_memory { IfErr result (λ e. e ≡ fault.NoMemory) }
    {
        // Nothing else than memory fails under a writer to memory.
        match self.writer.write_fields(fields) {
            Ok(()) => Ok(()),
            Err(_) => Err(ReportFault::NoMemory),
        }
    }

    /// The text of the rows. `NoMemory` where memory runs out.
    pub fn text(self) -> Result<Vec<u8>, ReportFault>
        ensures value { IfOk result (λ text. text.items ≡ page_text self) }
        ensures no_memory { IfErr result (λ e. e ≡ fault.NoMemory) }
    {
        let Page { writer } = self;
        match writer.into_inner() {
            Ok(text) => Ok(text),
            Err(_) => Err(ReportFault::NoMemory),
        }
    }
}
