//! The rows of stop_times.txt as they stand in the file, in stretches of one trip each.

ghost use Rattle.std.specs.Prelude.{◌≡◌, ◌++◌, ◌∷◌, [], All, IfOk, OnOk, length};
ghost use Rattle.feed_reader.specs.Stretches.{IsWithin, rows_on};

use crate::order::TripCall;
use crate::row_call::RowCall;
use gtfs_rows::NoMemory;
use std::alloc::Global;
use std::marker::Model;

/// Rows of one trip that stand one behind the other: the number of the trip among the rows of
/// trips.txt, the place of its first row, and the place behind its last.
#[derive(Clone, Copy, Debug, Drop)]
pub(crate) struct Stretch {
    pub trip: u32,
    pub start: usize,
    pub end: usize,
}

/// Rows of stop_times.txt as calls of their trips, in file order. The number of a trip is kept once
/// for all rows of a stretch.
#[derive(Drop)]
pub(crate) struct CallRows {
    calls: Vec<RowCall>,
    stretches: Vec<Stretch>,
    /// The stretch that ends with the last row.
    last: Stretch,
}

impl Model for CallRows {
    ghost use Rattle.std.specs.Prelude.{◌++◌, ◌∷◌, [], List, length};
    ghost use Rattle.feed_reader.specs.Stretches.{EndsWith, rows_on};
    ghost use Rattle.feed_reader.specs.declared.order.TripCall.{TripCall};

    ghost Value = { List TripCall };

    ghost view = { λ r. rows_on r.calls.items (r.stretches.items ++ r.last ∷ []) };

    ghost invariant = { λ r. EndsWith (length r.calls.items) r.stretches.items r.last };
}

impl CallRows {
    /// No rows, with room for so many.
    pub fn with_capacity(alloc: Global, count: usize) -> Result<CallRows, NoMemory>
        ensures value { IfOk result (λ rows. rows ≡ []) }
    {
        let calls = Vec::with_capacity(alloc, count)?;
        Ok(CallRows {
            calls,
            stretches: Vec::new(alloc),
            last: Stretch {
                trip: 0,
                start: 0,
                end: 0,
            },
        })
    }

    /// Appends a row.
    pub fn push(&mut self, row: TripCall) -> Result<(), NoMemory>
        ensures ok { OnOk result (self.new ≡ self.old ++ row ∷ []) }
    {
        if row.trip != self.last.trip {
            return self.begin(row);
        }
        self.calls.push(row.call)?;
        self.last.end = self.calls.as_slice().len();
        Ok(())
    }

    // Appends a row that begins a stretch.
    fn begin(&mut self, row: TripCall) -> Result<(), NoMemory>
        ensures ok { OnOk result (self.new ≡ self.old ++ row ∷ []) }
    {
        let place = self.last.end;
        self.stretches.push(self.last)?;
        self.last = Stretch {
            trip: row.trip,
            start: place,
            end: place,
        };
        self.calls.push(row.call)?;
        self.last.end = self.calls.as_slice().len();
        Ok(())
    }

    /// The calls of the rows in file order, and their stretches.
    pub fn into_parts(self) -> Result<(Vec<RowCall>, Vec<Stretch>), NoMemory>
        ensures value { IfOk result (λ parts. rows_on parts.0.items parts.1.items ≡ self) }
        ensures within { IfOk result
            (λ parts. All (IsWithin (length parts.0.items)) parts.1.items) }
    {
        let mut stretches = self.stretches;
        stretches.push(self.last)?;
        Ok((self.calls, stretches))
    }
}
