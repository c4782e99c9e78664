//! Texts that are written, against texts of the format.

use super::{write_certificate, write_network};
use definitions::NetArc;
use desk_io::{MemorySink, WriteFault};
use lp_model::{NetFault, Network};
use std::alloc::Global;
use std::test::Fail;

const NETWORK_TEXT: &[u8] = b"assignment-network 1
nodes 3
arcs 2
k 345600000000
destination 1
a 0 1 60000 7000
a 2 0 1000000000 -
g 1
g 0
g 999999999999999
end
";

const CERTIFICATE_TEXT: &[u8] = b"assignment-certificate 1
nodes 3
arcs 2
k 345600000000
destination 1
a 0 1 60000 7000
a 2 0 1000000000 -
g 1
g 0
g 999999999999999
u 9223372036854775807
u 0
u 10
v 1000000000000000
v 0
q 1000000000000000000000000000
q 0
q 7
end
";

// Two arcs between three nodes: a boarding arc, and a free one with the greatest cost.
fn network(alloc: Global) -> Result<Network, NetFault> {
    let boarded = NetArc {
        tail: 0,
        head: 1,
        cost: 60_000,
        weight: Some(7_000),
    };
    let free = NetArc {
        tail: 2,
        head: 0,
        cost: 1_000_000_000,
        weight: None,
    };
    Network::new(3, [boarded, free].to_vec(alloc)?, 345_600_000_000)
}

const DEMAND: [u64; 3] = [1, 0, 999_999_999_999_999];

const LABELS: [u64; 3] = [9_223_372_036_854_775_807, 0, 10];

const VOLUMES: [u64; 2] = [1_000_000_000_000_000, 0];

const WAITS: [u128; 3] = [1_000_000_000_000_000_000_000_000_000, 0, 7];

// Writes of at most 10 bytes into so much room: the answer, and that what was written is the text
// as far as it goes.
#[test]
fn texts_are_written(rt: HostRuntime) -> Result<(), Fail> {
    let net = network(rt.alloc()).map_err(|_| "a network")?;
    assert!(rt; net.nodes() == 3 && net.arcs() == 2);
    for (room, sent) in [(1000, None), (5, Some(5)), (0, Some(0)), (100, Some(100))] {
        let answer = match sent {
            None => Ok(()),
            Some(sent) => Err(WriteFault { sent }),
        };
        let mut out = MemorySink::new(rt.alloc(), room, 10, Vec::new(rt.alloc()))?;
        assert_eq!(rt; write_network(&mut out, &net, 1, &DEMAND), answer, "{room}");
        let end = sent.unwrap_or(NETWORK_TEXT.len());
        let front = NETWORK_TEXT.get(..end).ok_or("so many bytes")?;
        assert_eq!(rt; out.bytes(), front, "{room}");
        let mut out = MemorySink::new(rt.alloc(), room, 10, Vec::new(rt.alloc()))?;
        let got = write_certificate(&mut out, &net, 1, &DEMAND, &LABELS, &VOLUMES, &WAITS);
        assert_eq!(rt; got, answer, "{room}");
        let end = sent.unwrap_or(CERTIFICATE_TEXT.len());
        let front = CERTIFICATE_TEXT.get(..end).ok_or("so many bytes")?;
        assert_eq!(rt; out.bytes(), front, "{room}");
    }
    Ok(())
}
