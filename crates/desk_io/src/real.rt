//! Adapters over files and streams of the system. They tell nothing of their bytes.

ghost use Rattle.std.specs.Prelude.{◌≡◌, ◌≢◌, ◌<◌, ◌≤◌, None, length, IfOk, OnOk, OnErr, refl};
ghost use Rattle.desk_io.specs.InMemory.{raised_count};

use super::outside::{Begin, Counted, Failed, Folder, Sink, Source};
use std::fs;
use std::io::{ErrorKind, Read, Write};
use std::marker::Model;
use std::rt::Files;

/// The files that a runtime reaches. A contract sees the number of failed calls alone.
#[derive(Drop)]
pub struct RealFolder<R: Files + Drop> {
    rt: R,
    begun: Option<R::File>,
    faults: u64,
}

impl<R: Files + Drop> Model for RealFolder<R> {
    ghost use Rattle.std.specs.Prelude.{ℕ};

    ghost Value = { ℕ };

    ghost view = { λ s. s.faults };
}

impl<R: Files + Drop> RealFolder<R> {
    /// A folder of the runtime's files. No file is begun yet.
    pub fn new(rt: R) -> RealFolder<R>
        ensures faults { result ≡ 0 }
    {
        RealFolder {
            rt,
            begun: None,
            faults: 0,
        }
    }
}

impl<R: Files + Drop> Counted for RealFolder<R> {
    ghost count = { λ s. s };

    fn faults(&self) -> u64 {
        self.faults
    }
}

impl<R: Files + Drop> Source for RealFolder<R> {
    ghost left = { λ _. None };

    ghost keeps_source_rest = { λ _ _. Unit {0} };

    ghost source_rest_reflexive = { λ _. tt };

    ghost source_rest_transitive = { λ _ _ _ _ _. tt };

    fn read(&mut self, buf: &mut [u8]) -> Result<usize, Failed>
        ensures within { IfOk result (λ n. n ≤ length buf.old) }
        ensures ok { OnOk result (self.new ≡ self.old) }
        ensures err { OnErr result (self.new ≡ raised_count self.old) }
        ensures count { self.old ≤ self.new }
    {
        let Some(file) = &mut self.begun else {
            return Ok(0);
        };
        match file.read(buf) {
            Ok(n) => Ok(n),
            Err(_) => {
                self.faults = self.faults.saturating_add(1);
                Err(Failed)
            }
        }
    }
}

impl<R: Files + Drop> Folder for RealFolder<R> {
    ghost files = { λ _. None };

    ghost files_kept = { λ _ _ _. refl };

    fn begin(&mut self, path: &str) -> Begin
        ensures begun { result ≢ Begin.Failed → self.new ≡ self.old }
        ensures failed { result ≡ Begin.Failed → self.new ≡ raised_count self.old }
        ensures count { self.old ≤ self.new }
    {
        self.begun = None;
        match fs::open(&self.rt, path) {
            Ok(file) => {
                self.begun = Some(file);
                Begin::Found
            }
            Err(e) => {
                if e.kind() == ErrorKind::NotFound {
                    return Begin::Missing;
                }
                self.faults = self.faults.saturating_add(1);
                Begin::Failed
            }
        }
    }
}

/// A stream that is written to. A contract sees the number of failed calls alone.
#[derive(Drop)]
pub struct RealStream<W: Write + Drop> {
    stream: W,
    faults: u64,
}

impl<W: Write + Drop> Model for RealStream<W> {
    ghost use Rattle.std.specs.Prelude.{ℕ};

    ghost Value = { ℕ };

    ghost view = { λ s. s.faults };
}

impl<W: Write + Drop> RealStream<W> {
    /// A sink over the stream.
    pub fn new(stream: W) -> RealStream<W>
        ensures faults { result ≡ 0 }
    {
        RealStream { stream, faults: 0 }
    }
}

impl<W: Write + Drop> Counted for RealStream<W> {
    ghost count = { λ s. s };

    fn faults(&self) -> u64 {
        self.faults
    }
}

impl<W: Write + Drop> Sink for RealStream<W> {
    ghost written = { λ _. None };

    ghost keeps_sink_rest = { λ _ _. Unit {0} };

    ghost sink_rest_reflexive = { λ _. tt };

    ghost sink_rest_transitive = { λ _ _ _ _ _. tt };

    fn write(&mut self, piece: &[u8]) -> Result<usize, Failed>
        ensures within { IfOk result (λ n. n ≤ length piece.now) }
        ensures some { IfOk result (λ n. 0 < length piece.now → 0 < n) }
        ensures ok { OnOk result (self.new ≡ self.old) }
        ensures err { OnErr result (self.new ≡ raised_count self.old) }
        ensures count { self.old ≤ self.new }
    {
        match self.stream.write(piece) {
            // A stream that takes none of a piece would take none for ever.
            Ok(n) if n > 0 || piece.is_empty() => Ok(n),
            _ => {
                self.faults = self.faults.saturating_add(1);
                Err(Failed)
            }
        }
    }
}

#[cfg(test)]
mod tests {
    use super::*;
    use crate::whole::{WriteFault, read_all, write_all};
    use std::test::Fail;
    use std::{env, process};

    #[test]
    fn reads_a_file_that_a_stream_wrote(rt: HostRuntime) -> Result<(), Fail> {
        let mut path = env::temp_dir(&rt)?;
        let process = process::id(rt.process());
        path.push(format!(in rt.alloc(); "desk_io_{process}")?)?;
        let mut stream = RealStream::new(fs::create(&rt, path.as_str())?);
        assert_eq!(rt; write_all(&mut stream, b"nodes 2\n"), Ok(()));
        assert_eq!(rt; stream.faults(), 0);

        let mut folder = RealFolder::new(rt);
        assert_eq!(rt; folder.begin(path.as_str()), Begin::Found);
        let bytes = read_all(rt.alloc(), &mut folder, 8).ok();
        assert_eq!(rt;
            bytes.as_ref().map(|v| v.as_slice()),
            Some(b"nodes 2\n".as_slice())
        );
        fs::remove_file(&rt, path.as_str())?;
        assert_eq!(rt; folder.begin(path.as_str()), Begin::Missing);
        assert_eq!(rt; folder.faults(), 0);
        // A path with a zero byte is refused by the system.
        assert_eq!(rt; folder.begin("a\0b"), Begin::Failed);
        assert_eq!(rt; folder.faults(), 1);
        Ok(())
    }

    #[test]
    fn counts_a_written_length_of_zero(rt: HostRuntime) -> Result<(), Fail> {
        let mut room = [0u8; 3];
        let mut stream = RealStream::new(room.as_mut_slice());
        assert_eq!(rt;
            write_all(&mut stream, b"abcde"),
            Err(WriteFault { sent: 3 })
        );
        assert_eq!(rt; stream.faults(), 1);
        assert_eq!(rt; stream.write(b""), Ok(0));
        assert_eq!(rt; stream.faults(), 1);
        Ok(())
    }
}
