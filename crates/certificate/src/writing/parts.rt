//! The parts of a text, written one after the other.

ghost use Rattle.std.specs.Prelude.{◌≤◌, All, codes, length, OnOk, OnErr, IfErr};
ghost use Rattle.std.specs.List.{flat_map};
ghost use Rattle.definitions.specs.Causes.{Rose};
ghost use Rattle.definitions.specs.Decimal.{number_line};
ghost use Rattle.desk_io.specs.Gathering.{Sends, Stops};
ghost use Rattle.certificate.specs.Parts.{HasShortWord, part_text};
ghost use Rattle.certificate.specs.Spelling.{arc_line};

use super::lines::{arc_line, number_line};
use definitions::NetArc;
use desk_io::{Counted, Gathered, Sink, WriteFault};
use lp_model::Network;

/// A part of a text.
#[derive(Clone, Copy, Drop)]
pub enum Part<'a> {
    Text(&'a str),
    /// The line of a word and a number.
    Number(&'a str, u128),
    /// The lines of a network's arcs.
    Arcs(&'a Network),
    /// A line for each of the numbers.
    Rows(&'a str, &'a [u64]),
    /// The lines of the waits.
    Waits(&'a [u128]),
}

/// Gives the parts one after the other, and stops where the sink fails.
pub fn write_parts<S: Sink>(
    out: &mut S,
    text: &mut Gathered,
    parts: &[Part<'_>],
) -> Result<(), WriteFault>
    requires words { All HasShortWord parts.now }
    ensures ok { OnOk result (Sends (S.written out.old) text.old (S.written out.new) text.new (flat_map part_text parts.now)) }
    ensures err { IfErr result (λ fault. Stops (S.written out.old) text.old (S.written out.new) (flat_map part_text parts.now) fault.sent) }
    ensures write_cause { OnErr result (Rose (S.count out.old) (S.count out.new)) }
    ensures count { S.count out.old ≤ S.count out.new }
    ensures rest { S.keeps_sink_rest out.old out.new }
{
    for part in parts {
        write_part(out, text, part)?;
    }
    Ok(())
}

// Gives one part.
fn write_part<S: Sink>(out: &mut S, text: &mut Gathered, part: &Part<'_>) -> Result<(), WriteFault>
    requires word { HasShortWord part.now }
    ensures ok { OnOk result (Sends (S.written out.old) text.old (S.written out.new) text.new (part_text part.now)) }
    ensures err { IfErr result (λ fault. Stops (S.written out.old) text.old (S.written out.new) (part_text part.now) fault.sent) }
    ensures write_cause { OnErr result (Rose (S.count out.old) (S.count out.new)) }
    ensures count { S.count out.old ≤ S.count out.new }
    ensures rest { S.keeps_sink_rest out.old out.new }
{
    match part {
        Part::Text(words) => text.write(out, words.as_bytes()),
        Part::Number(word, number) => write_number(out, text, word, *number),
        Part::Arcs(net) => write_arcs(out, text, net),
        Part::Rows(word, numbers) => write_rows(out, text, word, numbers),
        Part::Waits(waits) => write_waits(out, text, waits),
    }
}

// Gives the lines of the arcs.
fn write_arcs<S: Sink>(out: &mut S, text: &mut Gathered, net: &Network) -> Result<(), WriteFault>
    ensures ok { OnOk result (Sends (S.written out.old) text.old (S.written out.new) text.new (flat_map arc_line net.now.arcs)) }
    ensures err { IfErr result (λ fault. Stops (S.written out.old) text.old (S.written out.new) (flat_map arc_line net.now.arcs) fault.sent) }
    ensures write_cause { OnErr result (Rose (S.count out.old) (S.count out.new)) }
    ensures count { S.count out.old ≤ S.count out.new }
    ensures rest { S.keeps_sink_rest out.old out.new }
{
    for arc in 0..net.arcs() {
        write_arc(out, text, net.arc(arc))?;
    }
    Ok(())
}

// Gives a line for each of the numbers.
fn write_rows<S: Sink>(
    out: &mut S,
    text: &mut Gathered,
    word: &str,
    numbers: &[u64],
) -> Result<(), WriteFault>
    requires word { length word.now ≤ 16 }
    ensures ok { OnOk result (Sends (S.written out.old) text.old (S.written out.new) text.new (flat_map (number_line word.now) numbers.now)) }
    ensures err { IfErr result (λ fault. Stops (S.written out.old) text.old (S.written out.new) (flat_map (number_line word.now) numbers.now) fault.sent) }
    ensures write_cause { OnErr result (Rose (S.count out.old) (S.count out.new)) }
    ensures count { S.count out.old ≤ S.count out.new }
    ensures rest { S.keeps_sink_rest out.old out.new }
{
    for number in numbers {
        write_number(out, text, word, u128::from(*number))?;
    }
    Ok(())
}

// Gives the lines of the waits.
fn write_waits<S: Sink>(out: &mut S, text: &mut Gathered, waits: &[u128]) -> Result<(), WriteFault>
    ensures ok { OnOk result (Sends (S.written out.old) text.old (S.written out.new) text.new (flat_map (number_line (codes "q")) waits.now)) }
    ensures err { IfErr result (λ fault. Stops (S.written out.old) text.old (S.written out.new) (flat_map (number_line (codes "q")) waits.now) fault.sent) }
    ensures write_cause { OnErr result (Rose (S.count out.old) (S.count out.new)) }
    ensures count { S.count out.old ≤ S.count out.new }
    ensures rest { S.keeps_sink_rest out.old out.new }
{
    for wait in waits {
        write_number(out, text, "q", *wait)?;
    }
    Ok(())
}

// Gives the line of a word and a number.
fn write_number<S: Sink>(
    out: &mut S,
    text: &mut Gathered,
    word: &str,
    number: u128,
) -> Result<(), WriteFault>
    requires word { length word.now ≤ 16 }
    ensures ok { OnOk result (Sends (S.written out.old) text.old (S.written out.new) text.new (number_line word.now number)) }
    ensures err { IfErr result (λ fault. Stops (S.written out.old) text.old (S.written out.new) (number_line word.now number) fault.sent) }
    ensures write_cause { OnErr result (Rose (S.count out.old) (S.count out.new)) }
    ensures count { S.count out.old ≤ S.count out.new }
    ensures rest { S.keeps_sink_rest out.old out.new }
{
    text.write(out, number_line(word, number).as_slice())
}

// Gives the line of an arc.
fn write_arc<S: Sink>(out: &mut S, text: &mut Gathered, arc: &NetArc) -> Result<(), WriteFault>
    ensures ok { OnOk result (Sends (S.written out.old) text.old (S.written out.new) text.new (arc_line arc.now)) }
    ensures err { IfErr result (λ fault. Stops (S.written out.old) text.old (S.written out.new) (arc_line arc.now) fault.sent) }
    ensures write_cause { OnErr result (Rose (S.count out.old) (S.count out.new)) }
    ensures count { S.count out.old ≤ S.count out.new }
    ensures rest { S.keeps_sink_rest out.old out.new }
{
    text.write(out, arc_line(arc).as_slice())
}
