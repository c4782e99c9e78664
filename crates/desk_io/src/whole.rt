//! Whole reads and whole writes.

ghost use Rattle.std.specs.Prelude.{◌≡◌, ◌+◌, ◌<◌, ◌≤◌, [], Some, length, take, drop, IfOk, OnOk, OnErr, IfErr, IfSome, IsErrOf};
ghost use Rattle.std.specs.Option.{option_map};
ghost use Rattle.definitions.specs.Causes.{Rose};
ghost use Rattle.desk_io.specs.Told.{Appends, TakesAtMost};
ghost use Rattle.desk_io.specs.declared.whole.ReadAll.TheVariants.{NoMemory};

use super::outside::{Counted, Failed, Sink, Source};
use std::alloc::{AllocError, Global};

// The greatest number of bytes of one read.
const BUFFER: usize = 16_384;

/// Why not all was read.
#[derive(Clone, Copy, Debug, Drop, PartialEq, Eq)]
pub enum ReadAll {
    /// A read failed, and the source counted it.
    ReadFault,
    /// More bytes came than the limit.
    TooLarge,
    /// There was no memory for the bytes.
    NoMemory,
}

impl From<AllocError> for ReadAll {
    ghost from_gives = { λ _ e. e ≡ NoMemory };

    fn from(_e: AllocError) -> ReadAll {
        ReadAll::NoMemory
    }
}

/// The bytes that are left of the source, where they are no more than `limit`. It leaves none.
///
/// # Refusals
///
/// Each comes as soon as it applies, and leaves the source without the bytes read so far.
/// - `ReadFault`: a read failed.
/// - `TooLarge`: more than `limit` bytes came. Exactly `limit + 1` of them were taken.
/// - `NoMemory`: the bytes found no memory.
pub fn read_all<S: Source>(alloc: Global, source: &mut S, limit: usize) -> Result<Vec<u8>, ReadAll>
    // Of a source that tells its bytes.
    ensures value { IfOk result (λ v. IfSome (S.left source.old) (λ told. v.items ≡ told)) }
    ensures end { OnOk result (IfSome (S.left source.old) (λ _. S.left source.new ≡ Some [])) }
    ensures too_large { IsErrOf result ReadAll.TooLarge →
        IfSome (S.left source.old) (λ told. limit < length told) }
    ensures one_past { IsErrOf result ReadAll.TooLarge →
        S.left source.new ≡ option_map (drop (limit + 1)) (S.left source.old) }
    ensures taken { TakesAtMost (S.left source.old) (S.left source.new) (limit + 1) }

    // Of each source.
    ensures within { IfOk result (λ v. length v.items ≤ limit) }
    ensures read_cause { IsErrOf result ReadAll.ReadFault →
        Rose (S.count source.old) (S.count source.new) }
    ensures count { S.count source.old ≤ S.count source.new }
    ensures rest { S.keeps_source_rest source.old source.new }
{
    let mut bytes = Vec::new(alloc);
    let mut buf = [0u8; BUFFER];
    loop {
        let room = limit - bytes.len();
        // One more byte than there is room for shows that too many came.
        let most = room.saturating_add(1).min(BUFFER);
        let n = match source.read(&mut buf[..most]) {
            Ok(n) => n,
            Err(Failed) => return Err(ReadAll::ReadFault),
        };
        if n == 0 {
            return Ok(bytes);
        }
        if n > room {
            return Err(ReadAll::TooLarge);
        }
        bytes.extend_from_slice(&buf[..n])?;
    }
}

/// A write failed after the first `sent` bytes, and the sink counted it.
#[derive(Clone, Copy, Debug, Drop, PartialEq, Eq)]
pub struct WriteFault {
    pub sent: usize,
}

/// Appends all of the bytes to those written, and takes no memory.
///
/// Where a write fails, the first `sent` of them were appended and no others.
pub fn write_all<S: Sink>(sink: &mut S, bytes: &[u8]) -> Result<(), WriteFault>
    ensures ok { OnOk result (Appends (S.written sink.old) (S.written sink.new) bytes.now) }
    ensures err { IfErr result
        (λ fault. Appends (S.written sink.old) (S.written sink.new) (take fault.sent bytes.now)) }
    ensures sent { IfErr result (λ fault. fault.sent < length bytes.now) }
    ensures write_cause { OnErr result (Rose (S.count sink.old) (S.count sink.new)) }
    ensures count { S.count sink.old ≤ S.count sink.new }
    ensures rest { S.keeps_sink_rest sink.old sink.new }
{
    let mut sent = 0;
    while sent < bytes.len() {
        match sink.write(&bytes[sent..]) {
            Ok(n) => sent += n,
            Err(Failed) => return Err(WriteFault { sent }),
        }
    }
    Ok(())
}

#[cfg(test)]
mod tests {
    use super::*;
    use crate::memory_sink::MemorySink;
    use crate::memory_source::MemorySource;
    use crate::texts::Blob;
    use std::test::Fail;

    #[test]
    fn reads_up_to_the_limit(rt: HostRuntime) -> Result<(), Fail> {
        // Reads of "abcdefg" in steps of 3, and what is left then. Where no call fails, the bytes
        // come in calls 0, 1 and 2, and call 3 gives none.
        let cases = [
            (usize::MAX, 9, Ok("abcdefg"), ""),
            (7, 9, Ok("abcdefg"), ""),
            (6, 9, Err(ReadAll::TooLarge), ""),
            (3, 9, Err(ReadAll::TooLarge), "efg"),
            (0, 9, Err(ReadAll::TooLarge), "bcdefg"),
            (7, 1, Err(ReadAll::ReadFault), "defg"),
            (7, 3, Err(ReadAll::ReadFault), ""),
        ];
        for (limit, failing, want, left) in cases {
            let bytes = Blob::new(b"abcdefg".to_vec(rt.alloc())?);
            let mut source = MemorySource::new(bytes, 3, [failing].to_vec(rt.alloc())?);
            let got = read_all(rt.alloc(), &mut source, limit);
            match &got {
                Ok(bytes) => assert_eq!(rt; Ok(bytes.as_slice()), want.map(|w| w.as_bytes())),
                Err(fault) => assert_eq!(rt; Err(*fault), want.map(|w| w.as_bytes())),
            }
            let after = read_all(rt.alloc(), &mut source, 7).ok();
            assert_eq!(rt;
                after.as_ref().map(|v| v.as_slice()),
                Some(left.as_bytes()),
                "{limit}"
            );
        }
        Ok(())
    }

    #[test]
    fn reads_more_than_one_buffer(rt: HostRuntime) -> Result<(), Fail> {
        for (limit, fits) in [(40_000, true), (39_999, false)] {
            let bytes = Blob::new(vec![in rt.alloc(); 7u8; 40_000]?);
            let mut source = MemorySource::new(bytes, 40_000, Vec::new(rt.alloc()));
            match read_all(rt.alloc(), &mut source, limit) {
                Ok(bytes) => assert!(rt; fits && bytes.len() == 40_000),
                Err(fault) => assert!(rt; !fits && fault == ReadAll::TooLarge),
            }
        }
        Ok(())
    }

    #[test]
    fn writes_all_or_says_how_much(rt: HostRuntime) -> Result<(), Fail> {
        // Writes of "abcdefg" in steps of 2 into so much room.
        let cases = [
            (7, 9, Ok(()), "abcdefg"),
            (7, 2, Err(WriteFault { sent: 4 }), "abcd"),
            (5, 9, Err(WriteFault { sent: 5 }), "abcde"),
            (7, 0, Err(WriteFault { sent: 0 }), ""),
        ];
        for (room, failing, want, written) in cases {
            let failing = [failing].to_vec(rt.alloc())?;
            let mut sink = MemorySink::new(rt.alloc(), room, 2, failing)?;
            assert_eq!(rt; write_all(&mut sink, b"abcdefg"), want, "in room {room}");
            assert_eq!(rt; sink.bytes(), written.as_bytes(), "in room {room}");
        }
        Ok(())
    }
}
