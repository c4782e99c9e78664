//! Ids that are numbered in the order in which they come.

ghost use Rattle.std.specs.Prelude.{◌≡◌, ◌<◌, ◌^◌, ◌++◌, ◌∷◌, [], Some, None, OnOk, OnErr, IfSome, length};
ghost use Rattle.feed_reader.specs.Ids.{number_of};
ghost use Rattle.feed_reader.specs.Numbered.{IsNumbered, noted};

use crate::guesses::Guesses;
use gtfs_rows::{Name, NoMemory};
use std::alloc::Global;
use std::collections::BTreeMap;
use std::marker::Model;

/// Ids, no two of them equal, and the number of each, counted from 0.
#[derive(Drop)]
pub struct Ids {
    names: Vec<Name>,
    numbers: BTreeMap<String, u32>,
    guesses: Guesses,
    alloc: Global,
}

impl Model for Ids {
    ghost use Rattle.std.specs.Prelude.{ℕ, List};
    ghost use Rattle.feed_reader.specs.Numbered.{IsNumbered};

    ghost Value = { List (List ℕ) };

    ghost view = { λ ids. ids.names.items };

    ghost invariant = { λ ids. IsNumbered ids.names.items ids.numbers };
}

impl Ids {
    /// No ids. It takes no memory.
    pub fn new(alloc: Global) -> Ids
        ensures value { result ≡ [] }
    {
        Ids {
            names: Vec::new(alloc),
            numbers: BTreeMap::new(alloc),
            guesses: Guesses::new(alloc),
            alloc,
        }
    }

    /// How many there are.
    pub fn len(&self) -> u32
        ensures value { result ≡ length self.now }
    {
        self.names.as_slice().len() as u32
    }

    /// The ids, in order.
    pub fn names(&self) -> &[Name]
        ensures value { result.now ≡ self.now }
        ensures few { length result.now < 2 ^ 32 }
    {
        self.names.as_slice()
    }

    /// The ids as a list of their own.
    pub fn into_names(self) -> Vec<Name>
        ensures value { result.items ≡ self }
        ensures few { length result.items < 2 ^ 32 }
    {
        self.names
    }

    /// The number of an id.
    pub fn find(&self, id: &str) -> Option<u32>
        ensures value { result ≡ number_of self.now id.now }
        ensures within { IfSome result (λ number. number < length self.now) }
    {
        match self.guessed(id) {
            Some(number) => Some(number),
            None => self.numbers.get(id).copied(),
        }
    }

    // The number of an id, where it is guessed right.
    fn guessed(&self, id: &str) -> Option<u32>
        ensures right { IfSome result (λ number. number_of self.now id.now ≡ Some number) }
    {
        let guess = self.guesses.of(id)?;
        let name = self.names.as_slice().get(guess as usize)?;
        if name.as_str() == id {
            Some(guess)
        } else {
            None
        }
    }

    /// Appends an id that is not there.
    pub fn push(&mut self, id: &str) -> Result<(), NoMemory>
        requires new { number_of self.old id.now ≡ None }
        ensures ok { OnOk result (self.new ≡ self.old ++ id.now ∷ []) }
        ensures err { OnErr result (self.new ≡ self.old) }
    {
        let number = self.names.as_slice().len();
        if number >= 4_294_967_295 {
            return Err(NoMemory);
        }
        self.guesses.note(self.names.as_slice(), id)?;
        let name = String::from_str(self.alloc, id)?;
        let key = String::from_str(self.alloc, id)?;
        self.names.push(Name::new(name))?;
        let Ok(_old) = self.numbers.insert(key, number as u32) else {
            self.names.truncate(number);
            return Err(NoMemory);
        };
        Ok(())
    }

    /// Appends an id where it is not there yet.
    pub fn note(&mut self, id: &str) -> Result<(), NoMemory>
        ensures ok { OnOk result (self.new ≡ noted self.old id.now) }
        ensures err { OnErr result (self.new ≡ self.old) }
    {
        if self.find(id).is_some() {
            return Ok(());
        }
        self.push(id)
    }
}
