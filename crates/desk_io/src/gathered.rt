//! Short texts that are gathered into few writes.

ghost use Rattle.std.specs.Prelude.{◌≡◌, ◌≤◌, [], OnOk, OnErr, IfErr};
ghost use Rattle.definitions.specs.Causes.{Rose};
ghost use Rattle.desk_io.specs.Gathering.{Sends, Stops, nothing_gathered};

use super::outside::{Counted, Sink};
use super::whole::{WriteFault, write_all};
use arrayvec::ArrayVec;
use std::marker::Model;

// The greatest number of bytes that wait.
const ROOM: usize = 4096;

/// Bytes that wait for a sink, so that many short texts are few writes. It takes no memory.
///
/// All texts of one `Gathered` go to one sink. `flush` stands at the end of them.
#[derive(Drop)]
pub struct Gathered {
    waiting: ArrayVec<u8, ROOM>,
    sent: usize,
}

impl Model for Gathered {
    ghost use Rattle.desk_io.specs.Gathering.{Gathering};

    ghost Value = { Gathering };

    ghost view = { λ g. record { waiting = g.waiting.items; sent = g.sent } };
}

impl Gathered {
    /// Nothing waits.
    pub fn new() -> Gathered
        ensures value { result ≡ nothing_gathered }
    {
        Gathered {
            waiting: ArrayVec::new(),
            sent: 0,
        }
    }

    /// Gives a text to the sink: it waits where there is room for it.
    ///
    /// Where a write fails, `sent` counts the bytes that were sent of all texts so far, up to the
    /// last value of a usize.
    #[tactic(auto, using(crate::proofs::GatheringLemmas::sends_then, crate::proofs::GatheringLemmas::stops_then, crate::proofs::GatheringLemmas::stops_within, crate::proofs::GatheringLemmas::sends_none))]
    pub fn write<S: Sink>(&mut self, sink: &mut S, text: &[u8]) -> Result<(), WriteFault>
        ensures ok { OnOk result (Sends (S.written sink.old) self.old (S.written sink.new) self.new text.now) }
        ensures err { IfErr result (λ fault. Stops (S.written sink.old) self.old (S.written sink.new) text.now fault.sent) }
        ensures write_cause { OnErr result (Rose (S.count sink.old) (S.count sink.new)) }
        ensures count { S.count sink.old ≤ S.count sink.new }
        ensures rest { S.keeps_sink_rest sink.old sink.new }
    {
        if self.waiting.try_extend_from_slice(text).is_ok() {
            return Ok(());
        }
        self.flush(sink)?;
        if self.waiting.try_extend_from_slice(text).is_ok() {
            return Ok(());
        }
        self.send(sink, text)
    }

    /// Sends what waits.
    ///
    /// Where a write fails, `sent` counts the bytes that were sent of all texts so far, up to the
    /// last value of a usize.
    pub fn flush<S: Sink>(&mut self, sink: &mut S) -> Result<(), WriteFault>
        ensures ok { OnOk result (Sends (S.written sink.old) self.old (S.written sink.new) self.new []) }
        ensures empty { OnOk result (self.new.waiting ≡ []) }
        ensures err { IfErr result (λ fault. Stops (S.written sink.old) self.old (S.written sink.new) [] fault.sent) }
        ensures write_cause { OnErr result (Rose (S.count sink.old) (S.count sink.new)) }
        ensures count { S.count sink.old ≤ S.count sink.new }
        ensures rest { S.keeps_sink_rest sink.old sink.new }
    {
        match write_all(sink, self.waiting.as_slice()) {
            Ok(()) => {
                self.sent = self.sent.saturating_add(self.waiting.len());
                self.waiting.clear();
                Ok(())
            }
            Err(fault) => Err(WriteFault {
                sent: self.sent.saturating_add(fault.sent),
            }),
        }
    }

    // Sends a text past which nothing waits.
    fn send<S: Sink>(&mut self, sink: &mut S, text: &[u8]) -> Result<(), WriteFault>
        requires empty { self.old.waiting ≡ [] }
        ensures ok { OnOk result (Sends (S.written sink.old) self.old (S.written sink.new) self.new text.now) }
        ensures err { IfErr result (λ fault. Stops (S.written sink.old) self.old (S.written sink.new) text.now fault.sent) }
        ensures write_cause { OnErr result (Rose (S.count sink.old) (S.count sink.new)) }
        ensures count { S.count sink.old ≤ S.count sink.new }
        ensures rest { S.keeps_sink_rest sink.old sink.new }
    {
        match write_all(sink, text) {
            Ok(()) => {
                self.sent = self.sent.saturating_add(text.len());
                Ok(())
            }
            Err(fault) => Err(WriteFault {
                sent: self.sent.saturating_add(fault.sent),
            }),
        }
    }
}

#[cfg(test)]
mod tests;
