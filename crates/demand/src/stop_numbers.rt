//! The numbers of the stops of a feed, by id.

ghost use Rattle.std.specs.Prelude.{◌≡◌, ◌<◌, ◌^◌, ◌++◌, ◌∷◌, ℕ, List, [], IfOk, IfSome, OnOk, length};
ghost use Rattle.feed_reader.specs.Ids.{number_of};
ghost use Rattle.demand.specs.Numbering.{IsNumbering};
ghost use Rattle.demand.specs.Zones.{ids_of};

use feed_reader::Stop;
use gtfs_rows::NoMemory;
use std::alloc::Global;
use std::collections::BTreeMap;
use std::marker::Model;

/// The ids of stops, and the number of the first stop with each.
#[derive(Drop)]
pub struct StopNumbers<'a> {
    stops: &'a [Stop],
    numbers: BTreeMap<String, u32>,
}

impl<'a> Model for StopNumbers<'a> {
    ghost use Rattle.std.specs.Prelude.{ℕ, List};
    ghost use Rattle.demand.specs.Numbering.{IsNumbering};
    ghost use Rattle.demand.specs.Zones.{ids_of};

    ghost Value = { List (List ℕ) };

    ghost view = { λ s. ids_of s.stops.now };

    ghost invariant = { λ s. IsNumbering (ids_of s.stops.now) s.numbers };
}

impl<'a> StopNumbers<'a> {
    /// The numbers of these stops.
    pub fn new(alloc: Global, stops: &'a [Stop]) -> Result<StopNumbers<'a>, NoMemory>
        requires few { length stops.now < 2 ^ 32 }
        ensures value { IfOk result (λ s. s ≡ ids_of stops.now) }
    {
        let mut numbers = BTreeMap::new(alloc);
        for (number, stop) in stops.iter().enumerate() {
            note(alloc, &mut numbers, stop.id.as_str(), number as u32)?;
        }
        Ok(StopNumbers { stops, numbers })
    }

    /// The number of the first stop with an id.
    pub fn find(&self, id: &str) -> Option<u32>
        ensures value { result ≡ number_of self.now id.now }
        ensures within { IfSome result (λ number. number < length self.now) }
    {
        self.numbers.get(id).copied()
    }
}

// Notes the number of one more id, where it is new.
fn note(
    alloc: Global,
    numbers: &mut BTreeMap<String, u32>,
    id: &str,
    number: u32,
) -> Result<(), NoMemory>
    ensures ok { OnOk result ((ids : List (List ℕ)) → IsNumbering ids numbers.old → length ids ≡ number
        → IsNumbering (ids ++ id.now ∷ []) numbers.new) }
{
    if numbers.get(id).is_some() {
        return Ok(());
    }
    let key = String::from_str(alloc, id)?;
    let Ok(_none) = numbers.insert(key, number) else {
        return Err(NoMemory);
    };
    Ok(())
}
