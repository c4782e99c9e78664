//! Texts of problems and certificates, written without memory.

ghost use Rattle.std.specs.Prelude.{◌≡◌, All, ◌<◌, ◌≤◌, length, take, OnOk, OnErr, IfErr};
ghost use Rattle.std.specs.List.{flat_map};
ghost use Rattle.definitions.specs.Causes.{Rose};
ghost use Rattle.desk_io.specs.Told.{Appends};
ghost use Rattle.certificate.specs.Spelling.{certificate_of, spelling};
ghost use Rattle.certificate.specs.NetworkText.{network_spelling};
ghost use Rattle.certificate.specs.Parts.{HasShortWord, part_text};

mod lines;
mod parts;

use desk_io::{Counted, Gathered, Sink, WriteFault};
use lp_model::Network;
use parts::{Part, write_parts};

/// Writes the text of a certificate: of `dest` on the network, with a demand for each node (`g`,
/// units), labels for each node (`u`, ticks), volumes for each arc (`v`, units) and waits for each
/// node (`q`, ticks times units). It takes no memory.
///
/// Where a write fails, the first `sent` bytes of the text were written and no others.
pub fn write_certificate<'a, S: Sink>(
    out: &mut S,
    net: &'a Network,
    dest: u32,
    g: &'a [u64],
    u: &'a [u64],
    v: &'a [u64],
    q: &'a [u128],
) -> Result<(), WriteFault>
    requires demand { length g.now ≡ net.now.nodes }
    requires labels { length u.now ≡ net.now.nodes }
    requires volumes { length v.now ≡ length net.now.arcs }
    requires waits { length q.now ≡ net.now.nodes }
    ensures ok { OnOk result (Appends (S.written out.old) (S.written out.new)
        (spelling (certificate_of net.now dest g.now u.now v.now q.now))) }
    ensures err { IfErr result (λ fault. Appends (S.written out.old) (S.written out.new)
        (take fault.sent (spelling (certificate_of net.now dest g.now u.now v.now q.now)))) }
    ensures sent { IfErr result (λ fault. fault.sent
        < length (spelling (certificate_of net.now dest g.now u.now v.now q.now))) }
    ensures write_cause { OnErr result (Rose (S.count out.old) (S.count out.new)) }
    ensures count { S.count out.old ≤ S.count out.new }
    ensures rest { S.keeps_sink_rest out.old out.new }
{
    let parts = [
        Part::Text("assignment-certificate 1\n"),
        Part::Number("nodes", u128::from(net.nodes())),
        Part::Number("arcs", u128::from(net.arcs())),
        Part::Number("k", u128::from(net.k())),
        Part::Number("destination", u128::from(dest)),
        Part::Arcs(net),
        Part::Rows("g", g),
        Part::Rows("u", u),
        Part::Rows("v", v),
        Part::Waits(q),
        Part::Text("end\n"),
    ];
    write_text(out, &parts)
}

/// Writes the text of a problem: of `dest` on the network, with a demand for each node (`g`,
/// units). It takes no memory.
///
/// Where a write fails, the first `sent` bytes of the text were written and no others.
pub fn write_network<'a, S: Sink>(
    out: &mut S,
    net: &'a Network,
    dest: u32,
    g: &'a [u64],
) -> Result<(), WriteFault>
    requires demand { length g.now ≡ net.now.nodes }
    ensures ok { OnOk result (Appends (S.written out.old) (S.written out.new)
        (network_spelling (record { network = net.now; destination = dest; demand = g.now }))) }
    ensures err { IfErr result (λ fault. Appends (S.written out.old) (S.written out.new)
        (take fault.sent (network_spelling (record { network = net.now; destination = dest; demand = g.now })))) }
    ensures sent { IfErr result (λ fault. fault.sent
        < length (network_spelling (record { network = net.now; destination = dest; demand = g.now }))) }
    ensures write_cause { OnErr result (Rose (S.count out.old) (S.count out.new)) }
    ensures count { S.count out.old ≤ S.count out.new }
    ensures rest { S.keeps_sink_rest out.old out.new }
{
    let parts = [
        Part::Text("assignment-network 1\n"),
        Part::Number("nodes", u128::from(net.nodes())),
        Part::Number("arcs", u128::from(net.arcs())),
        Part::Number("k", u128::from(net.k())),
        Part::Number("destination", u128::from(dest)),
        Part::Arcs(net),
        Part::Rows("g", g),
        Part::Text("end\n"),
    ];
    write_text(out, &parts)
}

// Writes a text of parts.
fn write_text<S: Sink>(out: &mut S, parts: &[Part<'_>]) -> Result<(), WriteFault>
    requires words { All HasShortWord parts.now }
    requires short { length (flat_map part_text parts.now) ≤ 18446744073709551615 }
    ensures ok { OnOk result (Appends (S.written out.old) (S.written out.new) (flat_map part_text parts.now)) }
    ensures err { IfErr result (λ fault. Appends (S.written out.old) (S.written out.new) (take fault.sent (flat_map part_text parts.now))) }
    ensures sent { IfErr result (λ fault. fault.sent < length (flat_map part_text parts.now)) }
    ensures write_cause { OnErr result (Rose (S.count out.old) (S.count out.new)) }
    ensures count { S.count out.old ≤ S.count out.new }
    ensures rest { S.keeps_sink_rest out.old out.new }
{
    let mut text = Gathered::new();
    write_parts(out, &mut text, parts)?;
    text.flush(out)
}

#[cfg(test)]
mod tests;
