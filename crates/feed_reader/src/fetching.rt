//! The files of a feed from a folder.

ghost use Rattle.std.specs.Prelude.{◌≡◌, ◌<◌, ◌≤◌, ◌∷◌, [], IfOk, IfErr, OnOk, IfSome, IsErrOf, string_bytes};
ghost use Rattle.definitions.specs.Causes.{Rose};
ghost use Rattle.definitions.specs.declared.limits.TheConstants.{FILE_LIMIT};
ghost use Rattle.desk_io.specs.Told as told;
ghost use Rattle.feed_reader.specs.declared.fetch_fault.TheConstants.{FILES_LIMIT};
ghost use Rattle.feed_reader.specs.Fetched.{IsFirstFault, body_of, feed_files, file_faults, path_of, range_faults, sum_faults};
ghost use Rattle.feed_reader.specs.Bodies.{body_faults, with_body};
ghost use Rattle.feed_reader.specs.Places.{bytes_in, length_of, name_at};

use crate::fetch_fault::{FILES_LIMIT, FetchFault, FetchLimit};
use crate::files::Files;
use definitions::FILE_LIMIT;
use desk_io::{Begin, Folder, ReadAll, read_all};
use gtfs_rows::Blob;
use std::alloc::{AllocError, Global};

/// The files of the feed whose files have the paths `root/NAME`, in reading order. Those that the
/// folder does not have are left out.
///
/// # Refusals
///
/// - `Range`: a file is longer than a file may be, or all files up to it are longer than all may
///   be. The first that is passed in reading order is told, and of one file `File` first.
/// - `ReadFault` may come in place of any answer where a call of the folder failed, and
///   `NoMemory` may come in place of any.
pub fn fetch<D: Folder>(alloc: Global, folder: &mut D, root: &str) -> Result<Files, FetchFault>
    // Of a folder that tells its files.
    ensures files { IfOk result
        (λ files. IfSome (D.files folder.old) (λ told. files ≡ feed_files told root.now)) }
    ensures faultless { OnOk result (IfSome (D.files folder.old)
        (λ told. range_faults FILE_LIMIT FILES_LIMIT (feed_files told root.now) ≡ [])) }
    ensures refused { IfErr result (IsFirstFault (D.files folder.old)
        (λ told. range_faults FILE_LIMIT FILES_LIMIT (feed_files told root.now))
        (D.count folder.old) (D.count folder.new)) }

    // Of each folder.
    ensures within { IfOk result (λ files. bytes_in files ≤ FILES_LIMIT) }
    ensures read_cause { IsErrOf result FetchFault.ReadFault →
        Rose (D.count folder.old) (D.count folder.new) }
    ensures count { D.count folder.old ≤ D.count folder.new }
    ensures kept { D.files folder.new ≡ D.files folder.old }
{
    fetch_within(alloc, folder, root, FILE_LIMIT, FILES_LIMIT)
}

// The same with other limits, of the bytes of a file and of all files.
fn fetch_within<D: Folder>(
    alloc: Global,
    folder: &mut D,
    root: &str,
    file_limit: usize,
    files_limit: u64,
) -> Result<Files, FetchFault>
    requires limit { file_limit ≤ FILE_LIMIT }
    ensures files { IfOk result
        (λ files. IfSome (D.files folder.old) (λ told. files ≡ feed_files told root.now)) }
    ensures faultless { OnOk result (IfSome (D.files folder.old)
        (λ told. range_faults file_limit files_limit (feed_files told root.now) ≡ [])) }
    ensures refused { IfErr result (IsFirstFault (D.files folder.old)
        (λ told. range_faults file_limit files_limit (feed_files told root.now))
        (D.count folder.old) (D.count folder.new)) }
    ensures within { IfOk result (λ files. bytes_in files ≤ files_limit) }
    ensures count { D.count folder.old ≤ D.count folder.new }
    ensures kept { D.files folder.new ≡ D.files folder.old }
{
    let mut files = Files::none();
    for place in 0..8 {
        fetch_file(
            alloc,
            folder,
            root,
            place,
            file_limit,
            files_limit,
            &mut files,
        )?;
    }
    Ok(files)
}

// Begins and reads the file at a place, and adds it to those that were read before it.
fn fetch_file<D: Folder>(
    alloc: Global,
    folder: &mut D,
    root: &str,
    place: u32,
    file_limit: usize,
    files_limit: u64,
    files: &mut Files,
) -> Result<(), FetchFault>
    requires place { place < 8 }
    requires limit { file_limit ≤ FILE_LIMIT }
    ensures files { OnOk result (IfSome (D.files folder.old)
        (λ told. files.new ≡ with_body files.old place (body_of told root.now (name_at place)))) }
    ensures faultless { OnOk result (IfSome (D.files folder.old) (λ told.
        body_faults file_limit files_limit files.old place (body_of told root.now (name_at place)) ≡ [])) }
    ensures refused { IfErr result (IsFirstFault (D.files folder.old)
        (λ told. body_faults file_limit files_limit files.old place (body_of told root.now (name_at place)))
        (D.count folder.old) (D.count folder.new)) }
    ensures within { OnOk result (bytes_in files.new ≤ files_limit) }
    ensures count { D.count folder.old ≤ D.count folder.new }
    ensures kept { D.files folder.new ≡ D.files folder.old }
{
    let path = path_of(alloc, root, file_name(place))?;
    let body = read_file(alloc, folder, path.as_str(), file_limit)?;
    add(files, place, body, files_limit)
}

// The path of a file of a feed.
fn path_of(alloc: Global, root: &str, name: &str) -> Result<String, AllocError>
    ensures value { IfOk result (λ path. string_bytes path ≡ path_of root.now name.now) }
{
    let mut path = String::new(alloc);
    path.push_str(root)?;
    path.push_str("/")?;
    path.push_str(name)?;
    Ok(path)
}

// The name of the file at a place.
fn file_name(place: u32) -> &'static str
    requires place { place < 8 }
    ensures value { result.now ≡ name_at place }
{
    match place {
        0 => "stops.txt",
        1 => "routes.txt",
        2 => "calendar.txt",
        3 => "calendar_dates.txt",
        4 => "trips.txt",
        5 => "stop_times.txt",
        6 => "frequencies.txt",
        _ => "transfers.txt",
    }
}

// Begins and reads the file at a path, None where there is none.
fn read_file<D: Folder>(
    alloc: Global,
    folder: &mut D,
    path: &str,
    limit: usize,
) -> Result<Option<Blob>, FetchFault>
    requires limit { limit ≤ FILE_LIMIT }
    ensures value { IfOk result (λ body.
        IfSome (D.files folder.old) (λ files. body ≡ told.file_at files path.now)) }
    ensures refused { IfErr result (IsFirstFault (D.files folder.old)
        (λ files. file_faults limit (told.file_at files path.now))
        (D.count folder.old) (D.count folder.new)) }
    ensures short { IfOk result (λ body. length_of body ≤ limit) }
    ensures count { D.count folder.old ≤ D.count folder.new }
    ensures kept { D.files folder.new ≡ D.files folder.old }
{
    match folder.begin(path) {
        Begin::Found => {}
        Begin::Missing => return Ok(None),
        Begin::Failed => return Err(FetchFault::ReadFault),
    }
    match read_all(alloc, folder, limit) {
        Ok(bytes) => Ok(Some(Blob::new(bytes))),
        Err(ReadAll::ReadFault) => Err(FetchFault::ReadFault),
        Err(ReadAll::TooLarge) => Err(too_long(FetchLimit::File, limit as u64 + 1)),
        Err(ReadAll::NoMemory) => Err(FetchFault::NoMemory),
    }
}

// Puts a body at a place, if there is one, and judges how long all files are then.
fn add(files: &mut Files, place: u32, body: Option<Blob>, limit: u64) -> Result<(), FetchFault>
    requires place { place < 8 }
    requires body { length_of body ≤ FILE_LIMIT }
    ensures value { files.new ≡ with_body files.old place body }
    ensures faultless { OnOk result (sum_faults limit (bytes_in files.new) ≡ []) }
    ensures refused { IfErr result (λ fault. sum_faults limit (bytes_in files.new) ≡ fault ∷ []) }
    ensures within { OnOk result (bytes_in files.new ≤ limit) }
{
    if let Some(body) = body {
        files.set(place, body);
    }
    let count = files.length();
    if count > limit {
        return Err(too_long(FetchLimit::Files, count));
    }
    Ok(())
}

// The fault of a limit that so many bytes pass.
fn too_long(limit: FetchLimit, count: u64) -> FetchFault
    ensures value { result ≡ FetchFault.Range limit count }
{
    FetchFault::Range {
        limit,
        count: u128::from(count),
    }
}

#[cfg(test)]
mod tests;
