//! The tables: zones and demand.

ghost use Rattle.std.specs.Prelude.{◌≡◌, ℕ, ◌+◌, ◌++◌, ◌<◌, IfOk, OnOk};
ghost use Rattle.desk.specs.Draws.{state_after};
ghost use Rattle.desk.specs.GeneratedLines.{draws_before_line};
ghost use Rattle.desk.specs.GeneratedTables.{demand_sheet, draws_before_pair, draws_before_zone, link_row, pair_rows, pairs_before, pairs_from, zone_rows, zone_sheet};
ghost use Rattle.desk.specs.Generable.{IsGenerable};

use super::draws::draw;
use super::rows::{header, push, push_last};
use crate::gen_words::GenWords;
use std::alloc::{AllocError, Global};

/// The zones, where the state is that after all lines.
pub(super) fn zones(alloc: Global, words: &GenWords, state: &mut u64) -> Result<Vec<u8>, AllocError>
    requires range { IsGenerable words.now }
    requires at { state.old ≡ state_after words.now.seed (draws_before_line words.now.lines) }
    ensures text { IfOk result (λ text. text.items ≡ zone_sheet words.now words.now.zones) }
    ensures state { OnOk result (state.new ≡ state_after words.now.seed (draws_before_pair words.now 0)) }
{
    let mut text = header(alloc, "zone_id,stop_id,walk_secs")?;
    for zone in 0..words.zones {
        push_zone(&mut text, words, zone, state)?;
    }
    Ok(text)
}

// Appends the two links of a zone, where the state is that before it.
fn push_zone(
    text: &mut Vec<u8>,
    words: &GenWords,
    zone: u32,
    state: &mut u64,
) -> Result<(), AllocError>
    requires stops { 0 < words.now.stops }
    requires at { state.old ≡ state_after words.now.seed (draws_before_zone words.now zone) }
    ensures rows { OnOk result (text.new.items ≡ text.old.items ++ zone_rows words.now zone) }
    ensures state { OnOk result
        (state.new ≡ state_after words.now.seed (draws_before_zone words.now (zone + 1))) }
{
    push_link(text, words, zone, state)?;
    push_link(text, words, zone, state)?;
    Ok(())
}

// Appends a link of a zone, with the next two draws.
fn push_link(
    text: &mut Vec<u8>,
    words: &GenWords,
    zone: u32,
    state: &mut u64,
) -> Result<(), AllocError>
    requires stops { 0 < words.now.stops }
    ensures row { OnOk result ((before : ℕ) → state.old ≡ state_after words.now.seed before
        → text.new.items ≡ text.old.items ++ link_row words.now zone before) }
    ensures state { OnOk result ((before : ℕ) → state.old ≡ state_after words.now.seed before
        → state.new ≡ state_after words.now.seed (before + 2)) }
{
    let stop = draw(state, words.stops);
    let seconds = 60 + draw(state, 540);
    push(text, "z", zone)?;
    push(text, ",s", stop)?;
    push_last(text, ",", seconds)?;
    Ok(())
}

/// The demand, where the state is that after all zones.
pub(super) fn demand(
    alloc: Global,
    words: &GenWords,
    state: &mut u64,
) -> Result<Vec<u8>, AllocError>
    requires at { state.old ≡ state_after words.now.seed (draws_before_pair words.now 0) }
    ensures text { IfOk result (λ text. text.items ≡ demand_sheet words.now words.now.zones) }
{
    let mut text = header(alloc, "origin,destination,trips")?;
    for origin in 0..words.zones {
        push_pairs(&mut text, words, origin, state)?;
    }
    Ok(text)
}

// Appends the pairs from an origin that have trips, where the state is that before them.
fn push_pairs(
    text: &mut Vec<u8>,
    words: &GenWords,
    origin: u32,
    state: &mut u64,
) -> Result<(), AllocError>
    requires origin { origin < words.now.zones }
    requires at { state.old ≡ state_after words.now.seed
        (draws_before_pair words.now (pairs_before words.now.zones origin 0)) }
    ensures rows { OnOk result (text.new.items ≡ text.old.items ++ pairs_from words.now origin) }
    ensures state { OnOk result (state.new ≡ state_after words.now.seed
        (draws_before_pair words.now (pairs_before words.now.zones (origin + 1) 0))) }
{
    for destination in 0..words.zones {
        if destination != origin {
            push_pair(text, words, origin, destination, state)?;
        }
    }
    Ok(())
}

// Appends a pair where it has trips, where the state is that before it.
fn push_pair(
    text: &mut Vec<u8>,
    words: &GenWords,
    origin: u32,
    destination: u32,
    state: &mut u64,
) -> Result<(), AllocError>
    requires at { state.old ≡ state_after words.now.seed
        (draws_before_pair words.now (pairs_before words.now.zones origin destination)) }
    ensures rows { OnOk result
        (text.new.items ≡ text.old.items ++ pair_rows words.now origin destination) }
    ensures state { OnOk result (state.new ≡ state_after words.now.seed
        (draws_before_pair words.now (pairs_before words.now.zones origin destination + 1))) }
{
    if draw(state, 5) == 0 {
        let trips = 1 + draw(state, 50);
        push(text, "z", origin)?;
        push(text, ",z", destination)?;
        push_last(text, ",", trips)?;
    }
    Ok(())
}
