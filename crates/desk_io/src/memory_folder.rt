//! A folder in memory.

ghost use Rattle.std.specs.Prelude.{◌≡◌, ◌≢◌, ◌++◌, ◌<◌, ◌≤◌, IsTrue, Some, None, [], min, length, take, drop, true, false, is_err, IfOk, OnErr, IfSome, MatchOption, refl};
ghost use Rattle.std.proofs.Common.{◌∙◌, ap};
ghost use Rattle.desk_io.specs.Begun.{rest_of_file};
ghost use Rattle.desk_io.specs.InMemory.{no_calls, next_fails, with_call, begin_of};
ghost use Rattle.desk_io.specs.Told.{has_distinct_paths, file_at};

use super::outside::{Begin, Counted, Failed, Folder, Source};
use super::pieces::copy_piece;
use super::script::Script;
use super::texts::{Blob, Name};
use std::marker::Model;

/// Files to read, at most `step` bytes in one call. Each call of `begin` and `read` is numbered.
#[derive(Drop)]
pub struct MemoryFolder {
    files: Vec<(Name, Blob)>,
    begun: Option<usize>,
    at: usize,
    step: usize,
    script: Script,
}

impl Model for MemoryFolder {
    ghost use Rattle.std.specs.Prelude.{◌<◌, IsTrue};
    ghost use Rattle.desk_io.specs.Begun.{rest_of_file, IsBegun};
    ghost use Rattle.desk_io.specs.InMemory.{FolderState};
    ghost use Rattle.desk_io.specs.Told.{has_distinct_paths};

    ghost Value = { FolderState };

    ghost view = { λ s. record {
      files = s.files.items;
      left = rest_of_file s.files.items s.begun s.at;
      step = s.step;
      calls = s.script;
    } };

    ghost invariant = { λ s. record {
      some : 0 < s.step;
      within : IsBegun s.files.items s.begun s.at;
      distinct : IsTrue (has_distinct_paths s.files.items);
    } };
}

impl MemoryFolder {
    /// Whether no two of the files have one path.
    pub fn has_distinct_paths(files: &[(Name, Blob)]) -> bool
        ensures value { result ≡ has_distinct_paths files.now }
    {
        for (place, file) in files.iter().enumerate() {
            if place_of(&files[place + 1..], file.0.as_str()).is_some() {
                return false;
            }
        }
        true
    }

    /// A folder of these files, pairs of a path and its bytes. No file is begun yet.
    ///
    /// The calls whose numbers, from 0, stand in `failing` are to fail.
    pub fn new(files: Vec<(Name, Blob)>, step: usize, failing: Vec<u64>) -> MemoryFolder
        requires step { 0 < step }
        requires distinct { IsTrue (has_distinct_paths files.items) }
        ensures value { result ≡ record {
          files = files.items;
          left = [];
          step = step;
          calls = no_calls failing.items;
        } }
    {
        MemoryFolder {
            files,
            begun: None,
            at: 0,
            step,
            script: Script::new(failing),
        }
    }
}

impl Counted for MemoryFolder {
    ghost count = { λ s. s.calls.faults };

    fn faults(&self) -> u64 {
        self.script.faults()
    }
}

impl Source for MemoryFolder {
    ghost left = { λ s. Some s.left };

    ghost keeps_source_rest = { λ a b. b.files ≡ a.files };

    ghost source_rest_reflexive = { λ _. refl };

    ghost source_rest_transitive = { λ _ _ _ p q. q ∙ p };

    fn read(&mut self, buf: &mut [u8]) -> Result<usize, Failed>
        ensures failed { is_err result ≡ next_fails self.old.calls }
        ensures number { IfOk result
            (λ n. n ≡ min (min (length buf.old) self.old.step) (length self.old.left)) }
        ensures copied { IfOk result (λ n. buf.new ≡ take n self.old.left ++ drop n buf.old) }
        ensures read { IfOk result (λ n. self.new ≡ record self.old {
          left = drop n self.old.left;
          calls = with_call self.old.calls false;
        }) }
        ensures unread { OnErr result
            (self.new ≡ record self.old { calls = with_call self.old.calls true }) }
        ensures end { IfOk result (λ n. n ≡ 0 → 0 < length buf.old → self.new.left ≡ []) }
        ensures count { self.old.calls.faults ≤ self.new.calls.faults }
    {
        let failed = self.script.next_fails();
        self.script.count(failed);
        if failed {
            return Err(Failed);
        }
        let Some(place) = self.begun else {
            return Ok(0);
        };
        let bytes = self.files[place].1.as_slice();
        let n = copy_piece(&bytes[self.at..], self.step, buf);
        self.at += n;
        Ok(n)
    }
}

impl Folder for MemoryFolder {
    ghost files = { λ s. Some s.files };

    ghost files_kept = { λ _ _ h. ap Some h };

    fn begin(&mut self, path: &str) -> Begin
        ensures value { result ≡
            begin_of (next_fails self.old.calls) (file_at self.old.files path.now) }
        ensures begun { result ≡ Begin.Found →
            Some self.new.left ≡ file_at self.old.files path.now }
        ensures none_left { result ≢ Begin.Found → self.new.left ≡ [] }
        ensures state { self.new ≡ record self.old {
          left = self.new.left;
          calls = with_call self.old.calls (next_fails self.old.calls);
        } }
        ensures count { self.old.calls.faults ≤ self.new.calls.faults }
        ensures distinct { IsTrue (has_distinct_paths self.old.files) }
    {
        let failed = self.script.next_fails();
        self.script.count(failed);
        self.begun = None;
        self.at = 0;
        if failed {
            return Begin::Failed;
        }
        match place_of(&self.files, path) {
            Some(place) => {
                self.begun = Some(place);
                Begin::Found
            }
            None => Begin::Missing,
        }
    }
}

// The place of the file at the path.
fn place_of(files: &[(Name, Blob)], path: &str) -> Option<usize>
    ensures within { IfSome result (λ place. place < length files.now) }
    ensures file { MatchOption result
        (file_at files.now path.now ≡ None)
        (λ place. file_at files.now path.now ≡ Some (rest_of_file files.now (Some place) 0)) }
{
    for (place, file) in files.iter().enumerate() {
        if path == file.0.as_str() {
            return Some(place);
        }
    }
    None
}

#[cfg(test)]
mod tests {
    use super::*;
    use std::alloc::{AllocError, Global};
    use std::test::Fail;

    fn file(alloc: Global, path: &str, text: &str) -> Result<(Name, Blob), AllocError>
        ensures path { IfOk result (λ file. file.0 ≡ path.now) }
    {
        let name = Name::new(String::from_str(alloc, path)?);
        Ok((name, Blob::new(text.as_bytes().to_vec(alloc)?)))
    }

    #[test]
    fn begins_the_files_of_its_list(rt: HostRuntime) -> Result<(), Fail> {
        let alloc = rt.alloc();
        let mut files = Vec::new(alloc);
        files.push(file(alloc, "f/a.txt", "one")?)?;
        files.push(file(alloc, "f/b.txt", "three")?)?;
        assert!(rt; MemoryFolder::has_distinct_paths(&files));
        let mut folder = MemoryFolder::new(files, 4, [5, 7].to_vec(alloc)?);

        // What each begin and the two reads after it give; "!" stands for the failed calls 5 and 7.
        let cases = [
            ("f/b.txt", Begin::Found, ["thre", "e"]),
            ("f/c.txt", Begin::Missing, ["", "!"]),
            ("f/a.txt", Begin::Found, ["!", "one"]),
            ("f/a.txt", Begin::Found, ["one", ""]),
        ];
        for (path, begun, reads) in cases {
            assert_eq!(rt; folder.begin(path), begun, "at {path}");
            for want in reads {
                let mut buf = [b'!'; 9];
                let n = folder.read(&mut buf).unwrap_or(1);
                assert_eq!(rt; &buf[..n], want.as_bytes(), "at {path}");
            }
        }
        assert_eq!(rt; folder.faults(), 2);
        Ok(())
    }

    #[test]
    fn has_no_bytes_where_no_file_is_begun(rt: HostRuntime) -> Result<(), Fail> {
        let alloc = rt.alloc();
        let mut files = Vec::new(alloc);
        files.push(file(alloc, "a", "one")?)?;
        assert!(rt; MemoryFolder::has_distinct_paths(&files));
        let mut folder = MemoryFolder::new(files, 4, [2].to_vec(alloc)?);
        let mut buf = [0u8; 9];
        assert_eq!(rt; folder.read(&mut buf), Ok(0), "before the first begin");
        assert_eq!(rt; folder.begin("a"), Begin::Found);
        assert_eq!(rt; folder.begin("a"), Begin::Failed);
        assert_eq!(rt; folder.read(&mut buf), Ok(0), "after a failed begin");
        Ok(())
    }
}
