//! A list of fields in one buffer.

ghost use Rattle.std.specs.Prelude.{◌≡◌, ◌++◌, ◌∷◌, ◌<◌, [], OnOk, OnErr, length, slice_index_or};
ghost use Rattle.csv.specs.Records.{cut_from, prev};
ghost use Rattle.gtfs_rows.specs.Cuts.{IsFlat};

use crate::memory::NoMemory;
use std::alloc::Global;
use std::marker::Model;

/// A list of fields: their bytes one after the other, and where each field ends.
#[derive(Drop)]
pub struct FieldList {
    bytes: Vec<u8>,
    ends: Vec<u32>,
}

impl Model for FieldList {
    ghost use Rattle.std.specs.Prelude.{ℕ, List};
    ghost use Rattle.csv.specs.Records.{cut_from};
    ghost use Rattle.gtfs_rows.specs.Cuts.{IsFlat};

    ghost Value = { List (List ℕ) };

    ghost view = { λ list. cut_from 0 list.ends.items list.bytes.items };

    ghost invariant = { λ list. IsFlat list.ends.items list.bytes.items };
}

impl FieldList {
    /// No fields. It takes no memory.
    pub fn new(alloc: Global) -> FieldList
        ensures value { result ≡ [] }
    {
        FieldList {
            bytes: Vec::new(alloc),
            ends: Vec::new(alloc),
        }
    }

    /// Appends a field.
    pub fn push(&mut self, field: &[u8]) -> Result<(), NoMemory>
        ensures ok { OnOk result (self.new ≡ self.old ++ field.now ∷ []) }
        ensures err { OnErr result (self.new ≡ self.old) }
    {
        let start = self.bytes.as_slice().len();
        self.bytes.extend_from_slice(field)?;
        let end = self.bytes.as_slice().len();
        let Ok(_) = note_end(&mut self.ends, end) else {
            self.bytes.truncate(start);
            return Err(NoMemory);
        };
        Ok(())
    }

    /// How many fields it has.
    pub fn len(&self) -> usize
        ensures value { result ≡ length self.now }
    {
        self.ends.as_slice().len()
    }

    /// The field at a place.
    pub fn get(&self, place: usize) -> &[u8]
        requires place { place < length self.now }
        ensures value { result.now ≡ slice_index_or self.now place [] }
    {
        part(self.bytes.as_slice(), self.ends.as_slice(), place)
    }
}

// Appends an end. One past the numbers of 32 bits is answered as want of memory.
fn note_end(ends: &mut Vec<u32>, end: usize) -> Result<(), NoMemory>
    ensures ok { OnOk result (ends.new.items ≡ ends.old.items ++ end ∷ []) }
    ensures err { OnErr result (ends.new.items ≡ ends.old.items) }
{
    let Ok(end) = u32::try_from(end) else {
        return Err(NoMemory);
    };
    ends.push(end)?;
    Ok(())
}

// Where the field at a place starts.
fn start_of(ends: &[u32], place: usize) -> usize
    requires place { place < length ends.now }
    ensures value { result ≡ prev 0 ends.now place }
{
    if place == 0 {
        0
    } else {
        ends[place - 1] as usize
    }
}

// The field at a place.
fn part<'a>(bytes: &'a [u8], ends: &[u32], place: usize) -> &'a [u8]
    requires flat { IsFlat ends.now bytes.now }
    requires place { place < length ends.now }
    ensures value { result.now ≡ slice_index_or (cut_from 0 ends.now bytes.now) place [] }
{
    let start = start_of(ends, place);
    let end = ends[place] as usize;
    &bytes[start..end]
}
