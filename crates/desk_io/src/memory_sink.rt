//! A sink in memory.

ghost use Rattle.std.specs.Prelude.{◌≡◌, ◌++◌, ◌<◌, ◌≤◌, Some, [], min, length, take, true, false, is_err, IfOk, OnErr};
ghost use Rattle.desk_io.specs.InMemory.{no_calls, with_call, room_left, write_fails};

use super::outside::{Counted, Failed, Sink};
use super::script::Script;
use std::alloc::{AllocError, Global};
use std::marker::Model;

/// Takes bytes, at most `step` of them in one call and `room` in all.
#[derive(Drop)]
pub struct MemorySink {
    bytes: Vec<u8>,
    room: usize,
    step: usize,
    script: Script,
}

impl Model for MemorySink {
    ghost use Rattle.std.specs.Prelude.{◌<◌, ◌≤◌, length, vec_capacity};
    ghost use Rattle.desk_io.specs.InMemory.{SinkState};

    ghost Value = { SinkState };

    ghost view = { λ s. record {
      written = s.bytes.items;
      room = s.room;
      step = s.step;
      calls = s.script;
    } };

    ghost invariant = { λ s. record {
      some : 0 < s.step;
      within : length s.bytes.items ≤ s.room;
      reserved : s.room ≤ vec_capacity s.bytes;
    } };
}

impl MemorySink {
    /// A sink with room for so many bytes. It takes all its memory here.
    ///
    /// The calls whose numbers, from 0, stand in `failing` are to fail.
    pub fn new(
        alloc: Global,
        room: usize,
        step: usize,
        failing: Vec<u64>,
    ) -> Result<MemorySink, AllocError>
        requires step { 0 < step }
        ensures value { IfOk result (λ sink. sink ≡ record {
          written = [];
          room = room;
          step = step;
          calls = no_calls failing.items;
        }) }
    {
        let bytes = Vec::with_capacity(alloc, room)?;
        Ok(MemorySink {
            bytes,
            room,
            step,
            script: Script::new(failing),
        })
    }

    /// The bytes written so far.
    pub fn bytes(&self) -> &[u8]
        ensures value { result.now ≡ self.now.written }
    {
        self.bytes.as_slice()
    }
}

impl Counted for MemorySink {
    ghost count = { λ s. s.calls.faults };

    fn faults(&self) -> u64 {
        self.script.faults()
    }
}

impl Sink for MemorySink {
    ghost written = { λ s. Some s.written };

    ghost keeps_sink_rest = { λ _ _. Unit {0} };

    ghost sink_rest_reflexive = { λ _. tt };

    ghost sink_rest_transitive = { λ _ _ _ _ _. tt };

    fn write(&mut self, piece: &[u8]) -> Result<usize, Failed>
        ensures failed { is_err result ≡ write_fails self.old piece.now }
        ensures number { IfOk result
            (λ n. n ≡ min (min (length piece.now) self.old.step) (room_left self.old)) }
        ensures written { IfOk result (λ n. self.new ≡ record self.old {
          written = self.old.written ++ take n piece.now;
          calls = with_call self.old.calls false;
        }) }
        ensures unwritten { OnErr result
            (self.new ≡ record self.old { calls = with_call self.old.calls true }) }
        ensures some { IfOk result (λ n. 0 < length piece.now → 0 < n) }
        ensures count { self.old.calls.faults ≤ self.new.calls.faults }
    {
        let room = self.room - self.bytes.len();
        let failed = self.script.next_fails() || (room == 0 && !piece.is_empty());
        self.script.count(failed);
        if failed {
            return Err(Failed);
        }
        let n = piece.len().min(self.step).min(room);
        // The room was reserved.
        self.bytes.extend_from_slice(&piece[..n]).unwrap();
        Ok(n)
    }
}

#[cfg(test)]
mod tests {
    use super::*;
    use std::test::Fail;

    #[test]
    fn takes_bytes_in_steps_while_there_is_room(rt: HostRuntime) -> Result<(), Fail> {
        // What four writes of "abc" answer; 0 stands for a failed one. Call 9 is never made.
        let cases = [
            (9, 9, [9, 9], [3, 3, 3, 0], "abcabcabc", 1),
            (9, 2, [9, 9], [2, 2, 2, 2], "abababab", 0),
            (5, 9, [9, 9], [3, 2, 0, 0], "abcab", 2),
            (9, 9, [0, 2], [0, 3, 0, 3], "abcabc", 2),
            (0, 1, [0, 9], [0, 0, 0, 0], "", 4),
        ];
        for (room, step, failing, writes, written, faults) in cases {
            assert!(rt; step > 0);
            let failing = failing.to_vec(rt.alloc())?;
            let mut sink = MemorySink::new(rt.alloc(), room, step, failing)?;
            for want in writes {
                assert_eq!(rt; sink.write(b"abc").unwrap_or(0), want, "in room {room}");
            }
            assert_eq!(rt; sink.bytes(), written.as_bytes(), "in room {room}");
            assert_eq!(rt; sink.faults(), faults, "in room {room}");
        }
        Ok(())
    }

    #[test]
    fn takes_an_empty_piece_without_room(rt: HostRuntime) -> Result<(), Fail> {
        let mut sink = MemorySink::new(rt.alloc(), 0, 1, Vec::new(rt.alloc()))?;
        assert_eq!(rt; sink.write(b""), Ok(0));
        assert_eq!(rt; sink.faults(), 0);
        Ok(())
    }
}
