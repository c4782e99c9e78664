//! The files that `assign` reads.

ghost use Rattle.std.specs.Prelude.{◌≡◌, ◌≤◌, [], IfOk, IfErr, OnOk, IfSome, flat_map};
ghost use Rattle.std.specs.Option.{option_to_list};
ghost use Rattle.feed_reader.specs.Fetched.{feed_files};
ghost use Rattle.desk.specs.InputFaults.{EndsReading, HasInputFault, IsUnread, feed_file_faults, from_fetch, limit_of_files, path_faults};
ghost use Rattle.desk.specs.Inputs.{AreInputsOf, IsFile, IsFileWhere};

use crate::command::AssignWords;
use crate::status::{Cause, Limit};
use definitions::FILE_LIMIT;
use desk_io::{Begin, Folder, Name, ReadAll, read_all};
use feed_reader::{FetchFault, FetchLimit, Files, fetch};
use gtfs_rows::Blob;
use std::alloc::Global;

/// The files of a feed, and the bytes of the tables: zones and demand, and walks and a scenario
/// where the words name them.
#[derive(Drop)]
pub struct Inputs {
    pub files: Files,
    pub zones: Blob,
    pub demand: Blob,
    pub walks: Option<Blob>,
    pub scenario: Option<Blob>,
}

/// Reads all files that the words of `assign` name: those of the feed in their reading order, of
/// which some need not be there, then zones, demand, walks and scenario. Each is begun and read in
/// turn.
///
/// # Causes
///
/// The first that applies, in the order of the files.
/// - `Range`: a file is longer than a file may be, or the files of the feed so far are longer than
///   all of them may be.
/// - `Usage`: zones, demand, walks or scenario are named and not there.
/// - `ReadFault` may come in place of any answer where a call of the folder failed, and `NoMemory`
///   may come in place of any.
pub fn read_inputs<D: Folder>(
    alloc: Global,
    words: &AssignWords,
    folder: &mut D,
) -> Result<Inputs, Cause>
    ensures inputs { IfOk result (AreInputsOf (D.files folder.old) words.now) }
    ensures fault { IfErr result (HasInputFault
        (record { files = D.files folder.old; old_count = D.count folder.old; new_count = D.count folder.new }) words.now) }
    ensures count { D.count folder.old ≤ D.count folder.new }
    ensures kept { D.files folder.new ≡ D.files folder.old }
{
    let files = read_feed(alloc, words.folder.as_str(), folder)?;
    let zones = read_file(alloc, words.zones.as_str(), folder)?;
    let demand = read_file(alloc, words.demand.as_str(), folder)?;
    let walks = read_where(alloc, &words.walks, folder)?;
    let scenario = read_where(alloc, &words.scenario, folder)?;
    Ok(Inputs {
        files,
        zones,
        demand,
        walks,
        scenario,
    })
}

/// The bytes of the file at the path, or why they were not read.
pub fn read_file<D: Folder>(alloc: Global, path: &str, folder: &mut D) -> Result<Blob, Cause>
    ensures file { IfOk result (IsFile (D.files folder.old) path.now) }
    ensures unread { IfErr result (IsUnread
        (record { files = D.files folder.old; old_count = D.count folder.old; new_count = D.count folder.new }) path.now) }
    ensures count { D.count folder.old ≤ D.count folder.new }
    ensures kept { D.files folder.new ≡ D.files folder.old }
{
    match folder.begin(path) {
        Begin::Found => {}
        Begin::Missing => return Err(Cause::no_file(alloc, path)),
        Begin::Failed => return Err(Cause::ReadFault),
    }
    match read_all(alloc, folder, FILE_LIMIT) {
        Ok(bytes) => Ok(Blob::new(bytes)),
        Err(ReadAll::ReadFault) => Err(Cause::ReadFault),
        Err(ReadAll::TooLarge) => Err(Cause::Range(Limit::File, FILE_LIMIT as u128 + 1)),
        Err(ReadAll::NoMemory) => Err(Cause::NoMemory),
    }
}

// The bytes of the file at the path, where there is a path.
fn read_where<D: Folder>(
    alloc: Global,
    path: &Option<Name>,
    folder: &mut D,
) -> Result<Option<Blob>, Cause>
    ensures file { IfOk result (IsFileWhere (D.files folder.old) path.now) }
    ensures fault { IfErr result (EndsReading
        (record { files = D.files folder.old; old_count = D.count folder.old; new_count = D.count folder.new })
        (λ told. flat_map (path_faults told) (option_to_list path.now)) (option_to_list path.now)) }
    ensures count { D.count folder.old ≤ D.count folder.new }
    ensures kept { D.files folder.new ≡ D.files folder.old }
{
    match path {
        None => Ok(None),
        Some(path) => {
            let bytes = read_file(alloc, path.as_str(), folder)?;
            Ok(Some(bytes))
        }
    }
}

// The files of the feed below the path, or why they were not read.
fn read_feed<D: Folder>(alloc: Global, path: &str, folder: &mut D) -> Result<Files, Cause>
    ensures files { IfOk result (λ files. IfSome (D.files folder.old) (λ told. files ≡ feed_files told path.now)) }
    ensures faultless { OnOk result (IfSome (D.files folder.old) (λ told. feed_file_faults told path.now ≡ [])) }
    ensures fault { IfErr result (EndsReading
        (record { files = D.files folder.old; old_count = D.count folder.old; new_count = D.count folder.new })
        (λ told. feed_file_faults told path.now) []) }
    ensures count { D.count folder.old ≤ D.count folder.new }
    ensures kept { D.files folder.new ≡ D.files folder.old }
{
    match fetch(alloc, folder, path) {
        Ok(files) => Ok(files),
        Err(fault) => Err(from_fetch(fault)),
    }
}

// A fault of the files of a feed as a cause.
fn from_fetch(fault: FetchFault) -> Cause
    ensures value { result ≡ from_fetch fault }
{
    match fault {
        FetchFault::ReadFault => Cause::ReadFault,
        FetchFault::Range { limit, count } => Cause::Range(limit_of_files(limit), count),
        FetchFault::NoMemory => Cause::NoMemory,
    }
}

// A limit of the files of a feed as one of the run.
fn limit_of_files(limit: FetchLimit) -> Limit
    ensures value { result ≡ limit_of_files limit }
{
    match limit {
        FetchLimit::File => Limit::File,
        FetchLimit::Files => Limit::Files,
    }
}
