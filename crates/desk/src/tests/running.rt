//! Runs over folders in memory, and what comes of them.

ghost use Rattle.std.specs.Prelude.{◌<◌};

use crate::run::run;
use desk_io::{Blob, MemoryFolder, MemorySink, Name};
use std::alloc::{AllocError, Global};
use std::process::Abort;
use std::str::from_utf8;

/// A run: the files of its folder, each a path and its text, its words, the call of the folder that
/// fails, whether files come in small pieces, and the room of the output and of the fault text.
#[derive(Clone, Copy)]
pub struct Trial<'t> {
    pub files: &'t [(&'t str, &'t str)],
    pub words: &'t [&'t str],
    pub failing: Option<u64>,
    pub in_pieces: bool,
    pub room: usize,
    pub room_for_faults: usize,
}

/// How a run is to end: its exit code, its output and its fault text.
#[derive(Clone, Copy)]
pub struct Ending<'e> {
    pub code: u8,
    pub out: &'e str,
    pub err: &'e str,
}

impl<'t> Trial<'t> {
    /// A run in which nothing fails.
    pub fn new(files: &'t [(&'t str, &'t str)], words: &'t [&'t str]) -> Trial<'t> {
        Trial {
            files,
            words,
            failing: None,
            in_pieces: false,
            room: 1000,
            room_for_faults: 1000,
        }
    }
}

impl<'e> Ending<'e> {
    /// The run prints this.
    pub fn printed(out: &'e str) -> Ending<'e> {
        Ending {
            code: 0,
            out,
            err: "",
        }
    }

    /// The run prints nothing, and tells this.
    pub fn refused(code: u8, err: &'e str) -> Ending<'e> {
        Ending { code, out: "", err }
    }
}

/// Asserts that the run ends so.
pub fn expect(
    rt: &(impl Abort + AllocGlobal),
    trial: Trial<'_>,
    ending: Ending<'_>,
) -> Result<(), AllocError> {
    let folder = folder_of(rt, trial)?;
    expect_over(rt, folder, trial, ending)
}

/// Asserts that a run over one file, a path and its text, ends so.
pub fn expect_on<'f>(
    rt: &(impl Abort + AllocGlobal),
    file: (&'f str, &'f str),
    words: &'f [&'f str],
    ending: Ending<'_>,
) -> Result<(), AllocError> {
    let files = [file];
    expect(rt, Trial::new(&files, words), ending)
}

/// Asserts that the run ends so over another folder.
pub fn expect_over(
    rt: &(impl Abort + AllocGlobal),
    mut folder: MemoryFolder,
    trial: Trial<'_>,
    ending: Ending<'_>,
) -> Result<(), AllocError> {
    let alloc = rt.alloc();
    let words = names_of(alloc, trial.words)?;
    let mut out = MemorySink::new(alloc, trial.room, 7, Vec::new(alloc))?;
    let mut err = MemorySink::new(alloc, trial.room_for_faults, 1000, Vec::new(alloc))?;
    let code = code_of(alloc, words.as_slice(), &mut folder, &mut out, &mut err);
    expect_text(rt, &err, ending.err);
    expect_text(rt, &out, ending.out);
    assert_eq!(rt; code, ending.code);
    Ok(())
}

/// What a run in which nothing fails writes to its output.
pub fn output_of(rt: &(impl Abort + AllocGlobal), trial: Trial<'_>) -> Result<String, AllocError> {
    let alloc = rt.alloc();
    let mut folder = folder_of(rt, trial)?;
    let words = names_of(alloc, trial.words)?;
    let mut out = MemorySink::new(alloc, trial.room, 7, Vec::new(alloc))?;
    let mut err = MemorySink::new(alloc, trial.room_for_faults, 1000, Vec::new(alloc))?;
    let code = code_of(alloc, words.as_slice(), &mut folder, &mut out, &mut err);
    assert_eq!(rt; code, 0);
    String::from_str(alloc, from_utf8(out.bytes()).unwrap_or("no text"))
}

// Asserts that this text was written.
fn expect_text(rt: &(impl Abort + AllocGlobal), sink: &MemorySink, text: &str) {
    let written = from_utf8(sink.bytes()).unwrap_or("no text");
    assert_eq!(rt; written, text);
}

// The exit code of a run.
fn code_of(
    alloc: Global,
    words: &[Name],
    folder: &mut MemoryFolder,
    out: &mut MemorySink,
    err: &mut MemorySink,
) -> u8 {
    run(alloc, words, folder, out, err).code
}

// The words as names.
fn names_of(alloc: Global, words: &[&str]) -> Result<Vec<Name>, AllocError> {
    let mut names = Vec::new(alloc);
    for word in words {
        names.push(Name::new(String::from_str(alloc, word)?))?;
    }
    Ok(names)
}

// The folder of a run.
fn folder_of(
    rt: &(impl Abort + AllocGlobal),
    trial: Trial<'_>,
) -> Result<MemoryFolder, AllocError> {
    let alloc = rt.alloc();
    let mut files = Vec::new(alloc);
    for (path, text) in trial.files {
        files.push(file_of(alloc, path, text)?)?;
    }
    let mut failing = Vec::new(alloc);
    if let Some(call) = trial.failing {
        failing.push(call)?;
    }
    let step = if trial.in_pieces { 7 } else { 1000 };
    folder_with(rt, files, step, failing)
}

/// A folder with a file that is one byte longer than a file may be.
pub fn folder_of_long_file(
    rt: &(impl Abort + AllocGlobal),
    path: &str,
) -> Result<MemoryFolder, AllocError> {
    let alloc = rt.alloc();
    let bytes = vec![in alloc; b'a'; 268_435_457]?;
    let mut files = Vec::new(alloc);
    files.push((Name::new(String::from_str(alloc, path)?), Blob::new(bytes)))?;
    folder_with(rt, files, 65_536, Vec::new(alloc))
}

// A folder with these files, of which one read gives at most `step` bytes.
fn folder_with(
    rt: &(impl Abort + AllocGlobal),
    files: Vec<(Name, Blob)>,
    step: usize,
    failing: Vec<u64>,
) -> Result<MemoryFolder, AllocError>
    requires step { 0 < step }
{
    assert!(rt; MemoryFolder::has_distinct_paths(&files));
    Ok(MemoryFolder::new(files, step, failing))
}

// A file at a path.
fn file_of(alloc: Global, path: &str, text: &str) -> Result<(Name, Blob), AllocError> {
    let path = Name::new(String::from_str(alloc, path)?);
    Ok((path, Blob::new(text.as_bytes().to_vec(alloc)?)))
}
