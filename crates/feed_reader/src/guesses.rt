//! Guesses of the numbers of ids, by a checksum of their bytes.

ghost use Rattle.std.specs.Prelude.{◌<◌, ◌^◌, length};

use gtfs_rows::{Name, NoMemory};
use std::alloc::Global;

/// For each checksum the number of an id that has it. Another id may have it too, so whoever takes
/// a guess compares the ids.
#[derive(Drop)]
pub(crate) struct Guesses {
    numbers: Vec<u32>,
    alloc: Global,
}

impl Guesses {
    /// No guesses. It takes no memory.
    pub fn new(alloc: Global) -> Guesses {
        Guesses {
            numbers: Vec::new(alloc),
            alloc,
        }
    }

    /// A guess of the number of an id.
    pub fn of(&self, id: &str) -> Option<u32> {
        let numbers = self.numbers.as_slice();
        numbers.get(place_of(id, numbers.len())).copied()
    }

    /// Notes an id that follows these.
    pub fn note(&mut self, ids: &[Name], id: &str) -> Result<(), NoMemory>
        requires few { length ids.now < 2 ^ 32 }
    {
        if 4 * ids.len() >= self.numbers.as_slice().len() {
            self.grow(ids)?;
        }
        self.put(id, ids.len() as u32);
        Ok(())
    }

    // Makes the room eight times as large as the ids need, and notes them anew.
    fn grow(&mut self, ids: &[Name]) -> Result<(), NoMemory>
        requires few { length ids.now < 2 ^ 32 }
    {
        self.numbers = vec![in self.alloc; 0u32; 8 * ids.len() + 1]?;
        for number in 0..ids.len() {
            self.put(ids[number].as_str(), number as u32);
        }
        Ok(())
    }

    // Sets the guess for an id.
    fn put(&mut self, id: &str, number: u32) {
        let place = place_of(id, self.numbers.as_slice().len());
        if let Some(guess) = self.numbers.get_mut(place) {
            *guess = number;
        }
    }
}

// The place of an id in a room of so many guesses.
fn place_of(id: &str, room: usize) -> usize {
    let sum = id.as_bytes().iter().fold(0u32, |sum, byte| {
        sum.wrapping_mul(31).wrapping_add(u32::from(*byte))
    });
    sum as usize % room.max(1)
}
