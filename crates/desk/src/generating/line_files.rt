//! The files of the lines: where and when they call, and how often they run.

ghost use Rattle.std.specs.Prelude.{◌≡◌, ◌+◌, ◌*◌, ◌++◌, ◌<◌, ◌≤◌, IfOk, OnOk};
ghost use Rattle.desk.specs.Draws.{state_after};
ghost use Rattle.desk.specs.GeneratedLines.{IsWayIn, call_time, draws_before_gap, draws_before_line, gap_of, headway_of, way_of};
ghost use Rattle.desk.specs.Generable.{IsGenerable};
ghost use Rattle.desk.specs.Generated.{band_row, bands_of, call_row, calls_text, times_of};

use super::draws::draw;
use super::rows::{header, push, push_clock, push_last};
use super::ways::{Way, stop_at, way_of};
use crate::gen_words::GenWords;
use std::alloc::{AllocError, Global};

/// The files of the lines.
#[derive(Drop)]
pub(super) struct LineFiles {
    pub(super) stop_times: Vec<u8>,
    pub(super) frequencies: Vec<u8>,
}

/// The files of all lines in order, where the state is the seed.
pub(super) fn line_files(
    alloc: Global,
    words: &GenWords,
    state: &mut u64,
) -> Result<LineFiles, AllocError>
    requires range { IsGenerable words.now }
    requires at { state.old ≡ words.now.seed }
    ensures stop_times { IfOk result (λ files. files.stop_times.items ≡ times_of words.now words.now.lines) }
    ensures frequencies { IfOk result (λ files. files.frequencies.items ≡ bands_of words.now words.now.lines) }
    ensures state { OnOk result (state.new ≡ state_after words.now.seed (draws_before_line words.now.lines)) }
{
    let mut stop_times = header(
        alloc,
        "trip_id,arrival_time,departure_time,stop_id,stop_sequence",
    )?;
    let mut frequencies = header(alloc, "trip_id,start_time,end_time,headway_secs")?;
    for line in 0..words.lines {
        push_line(&mut stop_times, &mut frequencies, words, line, state)?;
    }
    Ok(LineFiles {
        stop_times,
        frequencies,
    })
}

// Appends the rows of a line, where the state is that before it.
fn push_line(
    stop_times: &mut Vec<u8>,
    frequencies: &mut Vec<u8>,
    words: &GenWords,
    line: u32,
    state: &mut u64,
) -> Result<(), AllocError>
    requires range { IsGenerable words.now }
    requires at { state.old ≡ state_after words.now.seed (draws_before_line line) }
    ensures stop_times { OnOk result
        (stop_times.new.items ≡ stop_times.old.items ++ calls_text words.now line) }
    ensures frequencies { OnOk result
        (frequencies.new.items ≡ frequencies.old.items ++ band_row line (headway_of words.now line)) }
    ensures state { OnOk result
        (state.new ≡ state_after words.now.seed (draws_before_line (line + 1))) }
{
    let way = way_of(state, words, line);
    let gap = 60 + draw(state, 120);
    let headway = 300 + draw(state, 900);
    push_calls(stop_times, words, line, &way, gap)?;
    push_frequency(frequencies, line, headway)?;
    Ok(())
}

// Appends the calls of a line.
fn push_calls(
    text: &mut Vec<u8>,
    words: &GenWords,
    line: u32,
    way: &Way,
    gap: u32,
) -> Result<(), AllocError>
    requires range { IsGenerable words.now }
    requires way { way.now ≡ way_of words.now line }
    requires within { IsWayIn words.now.stops way.now }
    requires gap { gap ≡ gap_of words.now line }
    requires gap_below { gap < 180 }
    ensures rows { OnOk result (text.new.items ≡ text.old.items ++ calls_text words.now line) }
{
    for call in 0..way.calls(words.stops) {
        let stop = stop_at(words.stops, way, call);
        push_call(text, line, time_of(call, gap), stop, call + 1)?;
    }
    Ok(())
}

// The seconds from midnight of a call.
fn time_of(call: u32, gap: u32) -> u32
    requires call { call < 5000 }
    requires gap { gap < 180 }
    ensures value { result ≡ call_time gap call }
{
    6 * 3600 + call * gap
}

// Appends a call.
fn push_call(
    text: &mut Vec<u8>,
    line: u32,
    time: u32,
    stop: u32,
    sequence: u32,
) -> Result<(), AllocError>
    ensures row { OnOk result
        (text.new.items ≡ text.old.items ++ call_row line time stop sequence) }
{
    push(text, "t", line)?;
    push_clock(text, time)?;
    push_clock(text, time)?;
    push(text, ",s", stop)?;
    push_last(text, ",", sequence)?;
    Ok(())
}

// Appends how often a line runs.
fn push_frequency(text: &mut Vec<u8>, line: u32, headway: u32) -> Result<(), AllocError>
    ensures row { OnOk result (text.new.items ≡ text.old.items ++ band_row line headway) }
{
    push(text, "t", line)?;
    push_last(text, ",06:00:00,22:00:00,", headway)?;
    Ok(())
}
