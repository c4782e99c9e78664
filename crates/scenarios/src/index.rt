//! Ids of a feed, and the number of each.

ghost use Rattle.std.specs.Prelude.{◌≡◌, ◌<◌, ◌^◌, ◌++◌, ◌∷◌, ℕ, List, [], IfOk, IfSome, IsUtf8, OnOk, length, map};
ghost use Rattle.feed_reader.specs.Ids.{number_of};
ghost use Rattle.scenarios.specs.Index.{IsIndex};

use feed_reader::Stop;
use gtfs_rows::{Name, NoMemory};
use std::alloc::Global;
use std::collections::BTreeMap;
use std::marker::Model;
use std::str::from_utf8;

/// Ids, seen as their list.
#[derive(Drop)]
pub(crate) struct Index<'a> {
    ids: Vec<&'a str>,
    numbers: BTreeMap<&'a str, u32>,
}

impl<'a> Model for Index<'a> {
    ghost use Rattle.std.specs.Prelude.{List, ℕ, map};
    ghost use Rattle.scenarios.specs.Index.{IsIndex};

    ghost Value = { List (List ℕ) };

    ghost view = { λ i. map (λ id. id.now) i.ids.items };

    ghost invariant = { λ i. IsIndex (map (λ id. id.now) i.ids.items) i.numbers };
}

impl<'a> Index<'a> {
    /// These ids. Of equal ids the first has the number.
    pub fn new(alloc: Global, ids: Vec<&'a str>) -> Result<Index<'a>, NoMemory>
        requires few { length ids.items < 2 ^ 32 }
        ensures value { IfOk result (λ index. index ≡ map (λ id. id.now) ids.entry.items) }
    {
        let mut numbers = BTreeMap::new(alloc);
        for place in 0..ids.len() {
            note(&mut numbers, ids[place], place as u32)?;
        }
        Ok(Index { ids, numbers })
    }

    /// How many ids there are.
    pub fn len(&self) -> usize
        ensures value { result ≡ length self.now }
    {
        self.ids.as_slice().len()
    }

    /// The number of an id: its first place.
    pub fn find(&self, id: &[u8]) -> Option<u32>
        requires text { IsUtf8 id.now }
        ensures value { result ≡ number_of self.now id.now }
    {
        match from_utf8(id) {
            Ok(text) => self.numbers.get(text).copied(),
            Err(_) => None,
        }
    }
}

// Takes the number of one more id, if it did not stand before.
fn note<'a>(numbers: &mut BTreeMap<&'a str, u32>, id: &'a str, number: u32) -> Result<(), NoMemory>
    ensures noted { (ids : List (List ℕ)) → IsIndex ids numbers.old → number ≡ length ids
        → OnOk result (IsIndex (ids ++ id.now ∷ []) numbers.new) }
{
    if !numbers.contains_key(id) {
        numbers.insert(id, number)?;
    }
    Ok(())
}

/// The ids of routes.
pub(crate) fn route_ids<'a>(alloc: Global, routes: &'a [Name]) -> Result<Vec<&'a str>, NoMemory>
    ensures value { IfOk result (λ ids. map (λ id. id.now) ids.items ≡ routes.now) }
{
    let mut ids = Vec::new(alloc);
    for route in routes {
        ids.push(route.as_str())?;
    }
    Ok(ids)
}

/// The ids of stops.
pub(crate) fn stop_ids<'a>(alloc: Global, stops: &'a [Stop]) -> Result<Vec<&'a str>, NoMemory>
    ensures value { IfOk result
        (λ ids. map (λ id. id.now) ids.items ≡ map (λ stop. stop.id) stops.now) }
{
    let mut ids = Vec::new(alloc);
    for stop in stops {
        ids.push(stop.id.as_str())?;
    }
    Ok(ids)
}
