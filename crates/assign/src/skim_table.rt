//! The table of skims, written to a sink zone by zone.

ghost use Rattle.std.specs.Prelude.{◌≡◌, ◌<◌, ◌≤◌, ◌+◌, ◌++◌, ◌⊎◌, ℕ, [], ◌∷◌, Err, IfErr, IfOk, OnOk, length, map};
ghost use Rattle.std.specs.List.{range_with_len};
ghost use Rattle.definitions.specs.Causes.{Rose};
ghost use Rattle.label_setting.specs.Workspace.{IsRoomFor};
ghost use Rattle.line_report.specs.Pages.{IsBetweenRows, page_text};
ghost use Rattle.line_report.specs.Tables.{rows_text};
ghost use Rattle.line_report.specs.declared.fault.ReportFault.TheVariants as fault;
ghost use Rattle.skims.specs.Skims.{IsRoomFor as HasSkimRoom};
ghost use Rattle.assign.specs.Printed.{AppendsFrontOf, AppendsPart, AppendsSome};
ghost use Rattle.assign.specs.SkimSteps.{AreSkimRows, BeginsSkims, IsSentPartly, IsSentTo, IsSentToSome, IsTextTo};
ghost use Rattle.assign.specs.SkimTables.{AreSkimsTo, IsSkimTable, rows_from, skim_fields, skim_header};

use desk_io::Sink;
use gtfs_rows::Name;
use itoa::Buffer;
use label_setting::{Workspace, labels};
use line_report::{Page, ReportFault, Rows, header_text, page_from, send};
use network::CityNet;
use skims::{Skim, SkimSpace, fill};
use std::alloc::{AllocError, Global};
use std::marker::Model;

/// Writes the table of the skims to so many zones of a city, from one on. docs/FORMATS.md has its
/// columns. `names` are the ids of the zones.
///
/// A zone's rows are in memory at a time, and all other room is made before the first byte.
///
/// # Refusals
///
/// - `WriteFault` where the sink failed: the bytes sent are the first of the table.
/// - `NoMemory`: some first bytes of the table were written, maybe none.
pub(crate) fn skim_table<S: Sink>(
    alloc: Global,
    out: &mut S,
    city: &CityNet,
    names: &[Name],
    from: u32,
    count: u32,
) -> Result<(), ReportFault>
    requires zone_each { city.now.zones ≡ length names.now }
    requires within { from + count ≤ city.now.zones }
    ensures ok { OnOk result (AppendsSome (IsSkimTable city.now names.now
        (range_with_len from count)) (S.written out.old) (S.written out.new)) }
    ensures sent { (sent : ℕ) → result ≡ Err (fault.WriteFault sent)
        → AppendsPart (BeginsSkims city.now names.now (range_with_len from count)) sent
        (S.written out.old) (S.written out.new) }
    ensures write_cause { (sent : ℕ) → result ≡ Err (fault.WriteFault sent)
        → Rose (S.count out.old) (S.count out.new) }
    ensures no_memory { result ≡ Err fault.NoMemory → (out.new ≡ out.old) ⊎ AppendsFrontOf
        (BeginsSkims city.now names.now (range_with_len from count))
        (S.written out.old) (S.written out.new) }
    ensures count { S.count out.old ≤ S.count out.new }
    ensures rest { S.keeps_sink_rest out.old out.new }
{
    // Each zone has its origin among the nodes.
    city.rules();
    let mut room = SkimRoom::new(alloc, city)?;
    let header = header_text(alloc, &columns())?;
    let sent = send(out, 0, &header)?;
    send_zones(alloc, out, city, names, from, count, sent, &mut room)?;
    Ok(())
}

// Room for the labels and the skims of one zone after another.
#[derive(Drop)]
struct SkimRoom {
    labels: Workspace,
    space: SkimSpace,
}

impl SkimRoom {
    // Room for the zones of a city.
    fn new(alloc: Global, city: &CityNet) -> Result<SkimRoom, AllocError>
        ensures labels { IfOk result (λ room. IsRoomFor city.now.net room.labels) }
        ensures space { IfOk result (λ room. HasSkimRoom city.now room.space) }
    {
        Ok(SkimRoom {
            labels: Workspace::new(alloc, city.net())?,
            space: SkimSpace::new(alloc, city)?,
        })
    }
}

// The columns of the table.
fn columns() -> [&'static [u8]; 7]
    ensures value { map (λ name. name.now) result ≡ skim_header }
{
    [
        "origin".as_bytes(),
        "destination".as_bytes(),
        "label".as_bytes(),
        "walk".as_bytes(),
        "wait".as_bytes(),
        "ride".as_bytes(),
        "board".as_bytes(),
    ]
}

// Sends the rows to so many zones, from one on, behind so many bytes that were sent.
fn send_zones<S: Sink>(
    alloc: Global,
    out: &mut S,
    city: &CityNet,
    names: &[Name],
    from: u32,
    count: u32,
    before: usize,
    room: &mut SkimRoom,
) -> Result<usize, ReportFault>
    requires zone_each { city.now.zones ≡ length names.now }
    requires within { from + count ≤ city.now.zones }
    requires labels { IsRoomFor city.now.net room.old.labels }
    requires space { HasSkimRoom city.now room.old.space }
    ensures ok { IfOk result (λ sent. IsSentTo city.now names.now (range_with_len from count) before sent
        (S.written out.old) (S.written out.new)) }
    ensures sent { (sent : ℕ) → result ≡ Err (fault.WriteFault sent)
        → IsSentPartly city.now names.now (range_with_len from count) before sent
        (S.written out.old) (S.written out.new) }
    ensures write_cause { (sent : ℕ) → result ≡ Err (fault.WriteFault sent)
        → Rose (S.count out.old) (S.count out.new) }
    ensures no_memory { result ≡ Err fault.NoMemory
        → IsSentToSome city.now names.now (range_with_len from count)
        (S.written out.old) (S.written out.new) }
    ensures count { S.count out.old ≤ S.count out.new }
    ensures rest { S.keeps_sink_rest out.old out.new }
{
    // No zone is past a u32.
    let _zones = city.zones();
    let mut sent = before;
    for step in 0..count {
        let page = zone_page(alloc, city, names, from + step, room)?;
        sent = send(out, sent, &page)?;
    }
    Ok(sent)
}

// The text of the rows to a zone.
fn zone_page(
    alloc: Global,
    city: &CityNet,
    names: &[Name],
    zone: u32,
    room: &mut SkimRoom,
) -> Result<Vec<u8>, ReportFault>
    requires zone_each { city.now.zones ≡ length names.now }
    requires zone { zone < city.now.zones }
    requires labels { IsRoomFor city.now.net room.old.labels }
    requires space { HasSkimRoom city.now room.old.space }
    ensures labels { IsRoomFor city.now.net room.new.labels }
    ensures space { HasSkimRoom city.now room.new.space }
    ensures text { IfOk result (λ text. IsTextTo city.now names.now zone text.items) }
    ensures no_memory { IfErr result (λ e. e ≡ fault.NoMemory) }
{
    fill_room(city, zone, room);
    let rows = SkimRows::new(city, names, &room.space, zone);
    page_from(alloc, &rows, 0, names.len())
}

// Finds the labels and the skims to a zone.
fn fill_room(city: &CityNet, zone: u32, room: &mut SkimRoom)
    requires zone { zone < city.now.zones }
    requires labels { IsRoomFor city.now.net room.old.labels }
    requires space { HasSkimRoom city.now room.old.space }
    ensures labels { IsRoomFor city.now.net room.new.labels }
    ensures space { HasSkimRoom city.now room.new.space }
    ensures skims { AreSkimsTo city.now zone room.new.space.rows }
{
    city.net().rules();
    labels(city.net(), city.goal(zone), &mut room.labels);
    fill(city, zone, &room.labels, &mut room.space);
}

// The rows to a zone: a group for each origin.
#[derive(Drop)]
struct SkimRows<'a> {
    names: &'a [Name],
    space: &'a SkimSpace,
    zone: u32,
}

impl<'a> Model for SkimRows<'a> {
    ghost use Rattle.assign.specs.SkimSteps.{AreSkimRows, SkimRowsData};

    ghost Value = { SkimRowsData };

    ghost view = { λ t. record { names = t.names.now; space = t.space.now; zone = t.zone } };

    ghost invariant = { λ t. AreSkimRows
        (record { names = t.names.now; space = t.space.now; zone = t.zone }) };
}

impl<'a> SkimRows<'a> {
    // The rows to a zone of which the skims are filled in.
    fn new(city: &CityNet, names: &'a [Name], space: &'a SkimSpace, zone: u32) -> SkimRows<'a>
        requires zone_each { city.now.zones ≡ length names.now }
        requires zone { zone < city.now.zones }
        requires space { HasSkimRoom city.now space.now }
        ensures names { result.names ≡ names.now }
        ensures space { result.space ≡ space.now }
        ensures zone { result.zone ≡ zone }
    {
        let _zones = city.zones();
        SkimRows { names, space, zone }
    }

    // There is a place for each zone. This costs no time.
    fn rules(&self)
        ensures rules { AreSkimRows self.now }
    {
        let _zone = self.zone;
    }
}

impl<'a> Rows for SkimRows<'a> {
    ghost rows = { λ t. rows_from t.names t.zone t.space.rows };

    ghost count = { λ t. length t.names };

    fn groups(&self) -> usize {
        self.names.len()
    }

    fn add_group(&self, group: usize, page: &mut Page) -> Result<(), ReportFault> {
        self.rules();
        let origin = group as u32;
        if origin == self.zone {
            return Ok(());
        }
        match self.space.row(origin) {
            Some(skim) => add_skim(self.names, origin, self.zone, &skim, page),
            None => Ok(()),
        }
    }
}

// Adds the row of a skim between two zones.
fn add_skim(
    names: &[Name],
    origin: u32,
    zone: u32,
    skim: &Skim,
    page: &mut Page,
) -> Result<(), ReportFault>
    requires origin { origin < length names.now }
    requires zone { zone < length names.now }
    requires between { IsBetweenRows page.old }
    ensures between { OnOk result (IsBetweenRows page.new) }
    ensures added { OnOk result (page_text page.new
        ≡ page_text page.old ++ rows_text (skim_fields names.now zone origin skim.now ∷ [])) }
    ensures no_memory { IfErr result (λ e. e ≡ fault.NoMemory) }
{
    let mut label = Buffer::new();
    let mut walk = Buffer::new();
    let mut wait = Buffer::new();
    let mut ride = Buffer::new();
    let mut board = Buffer::new();
    page.add(&[
        names[origin as usize].as_str().as_bytes(),
        names[zone as usize].as_str().as_bytes(),
        label.format(skim.label).as_bytes(),
        walk.format(skim.walk).as_bytes(),
        wait.format(skim.wait).as_bytes(),
        ride.format(skim.ride).as_bytes(),
        board.format(skim.board).as_bytes(),
    ])
}
