//! A source in memory.

ghost use Rattle.std.specs.Prelude.{◌≡◌, ◌++◌, ◌<◌, ◌≤◌, Some, [], min, length, take, drop, true, false, is_err, IfOk, OnErr};
ghost use Rattle.desk_io.specs.InMemory.{no_calls, next_fails, with_call};

use super::outside::{Counted, Failed, Source};
use super::pieces::copy_piece;
use super::script::Script;
use super::texts::Blob;
use std::marker::Model;

/// Bytes to read, at most `step` of them in one call.
#[derive(Drop)]
pub struct MemorySource {
    bytes: Blob,
    at: usize,
    step: usize,
    script: Script,
}

impl Model for MemorySource {
    ghost use Rattle.std.specs.Prelude.{◌<◌, ◌≤◌, drop, length};
    ghost use Rattle.desk_io.specs.InMemory.{SourceState};

    ghost Value = { SourceState };

    ghost view = { λ s. record { left = drop s.at s.bytes; step = s.step; calls = s.script } };

    ghost invariant = { λ s. record { some : 0 < s.step; within : s.at ≤ length s.bytes } };
}

impl MemorySource {
    /// A source of these bytes. The calls whose numbers, from 0, stand in `failing` are to fail.
    pub fn new(bytes: Blob, step: usize, failing: Vec<u64>) -> MemorySource
        requires step { 0 < step }
        ensures value { result ≡ record {
          left = bytes;
          step = step;
          calls = no_calls failing.items;
        } }
    {
        MemorySource {
            bytes,
            at: 0,
            step,
            script: Script::new(failing),
        }
    }
}

impl Counted for MemorySource {
    ghost count = { λ s. s.calls.faults };

    fn faults(&self) -> u64 {
        self.script.faults()
    }
}

impl Source for MemorySource {
    ghost left = { λ s. Some s.left };

    ghost keeps_source_rest = { λ _ _. Unit {0} };

    ghost source_rest_reflexive = { λ _. tt };

    ghost source_rest_transitive = { λ _ _ _ _ _. tt };

    fn read(&mut self, buf: &mut [u8]) -> Result<usize, Failed>
        ensures failed { is_err result ≡ next_fails self.old.calls }
        ensures number { IfOk result
            (λ n. n ≡ min (min (length buf.old) self.old.step) (length self.old.left)) }
        ensures copied { IfOk result (λ n. buf.new ≡ take n self.old.left ++ drop n buf.old) }
        ensures read { IfOk result (λ n. self.new ≡ record self.old {
          left = drop n self.old.left;
          calls = with_call self.old.calls false;
        }) }
        ensures unread { OnErr result
            (self.new ≡ record self.old { calls = with_call self.old.calls true }) }
        ensures end { IfOk result (λ n. n ≡ 0 → 0 < length buf.old → self.new.left ≡ []) }
        ensures count { self.old.calls.faults ≤ self.new.calls.faults }
    {
        let failed = self.script.next_fails();
        self.script.count(failed);
        if failed {
            return Err(Failed);
        }
        let n = copy_piece(&self.bytes.as_slice()[self.at..], self.step, buf);
        self.at += n;
        Ok(n)
    }
}

#[cfg(test)]
mod tests {
    use super::*;
    use std::test::Fail;

    #[test]
    fn gives_its_bytes_in_steps(rt: HostRuntime) -> Result<(), Fail> {
        // What four reads of "abcdef" give; "!" stands for a failed one. Call 9 is never made.
        let cases = [
            (2, [9, 9], 4, ["ab", "cd", "ef", ""], 0),
            (9, [9, 9], 5, ["abcde", "f", "", ""], 0),
            (4, [9, 9], 3, ["abc", "def", "", ""], 0),
            (4, [1, 2], 5, ["abcd", "!", "!", "ef"], 2),
            (4, [0, 9], 0, ["!", "", "", ""], 1),
        ];
        for (step, failing, room, reads, faults) in cases {
            assert!(rt; step > 0 && room <= 5);
            let bytes = Blob::new(b"abcdef".to_vec(rt.alloc())?);
            let mut source = MemorySource::new(bytes, step, failing.to_vec(rt.alloc())?);
            for want in reads {
                let mut buf = [b'!'; 5];
                let n = source.read(&mut buf[..room]).unwrap_or(1);
                assert_eq!(rt; &buf[..n], want.as_bytes(), "at step {step}");
            }
            assert_eq!(rt; source.faults(), faults, "at step {step}");
        }
        Ok(())
    }
}
