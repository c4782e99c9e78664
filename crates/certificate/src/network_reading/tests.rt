//! Network texts: what is answered, with values worked out by hand from the format.

use super::read_network;
use crate::problem::{Problem, Units};
use crate::refused::{Limit, Refused};
use crate::writing::write_network;
use definitions::NetArc;
use desk_io::MemorySink;
use lp_model::{NetFault, Network};
use std::alloc::{AllocError, Global};
use std::test::Fail;

// One line from node 0 to node 1 and one passenger. The lines begin at bytes 0, 21, 29, 36, 49, 63,
// 80, 84 and 88, and the text ends at byte 92.
const ONE_LINE: [&str; 9] = [
    "assignment-network 1",
    "nodes 2",
    "arcs 1",
    "k 1800000000",
    "destination 1",
    "a 0 1 60000 7000",
    "g 1",
    "g 0",
    "end",
];

// The text of the line, with another line at one place.
fn text_with(alloc: Global, place: usize, other: &str) -> Result<Vec<u8>, AllocError> {
    let mut text = Vec::new(alloc);
    for (i, line) in ONE_LINE.iter().enumerate() {
        let line = if i == place { other } else { *line };
        text.extend_from_slice(line.as_bytes())?;
        text.push(b'\n')?;
    }
    Ok(text)
}

// The refusal of a text, if it has one.
fn refusal(alloc: Global, text: &[u8]) -> Option<Refused> {
    match read_network(alloc, text) {
        Ok(_) => None,
        Err(refused) => Some(refused),
    }
}

// Each kind of line with a byte that is wrong, and its place.
const WRONG_BYTES: [(usize, &str, u64); 12] = [
    (0, "assignment-certificate 1", 11),
    (0, "assignment-network 2", 19),
    (1, "nodes 02", 28),
    (2, "arc 1", 32),
    (3, "k -1", 38),
    (4, "destination", 60),
    (5, "a 0 1 60000", 74),
    (6, "u 1", 80),
    (7, "g 1", 86),
    (8, "g 0", 88),
    (8, "u 317142", 88),
    (8, "end ", 91),
];

// A line with a number one above its limit.
const RANGES: [(usize, &str, Limit, u128); 6] = [
    (1, "nodes 1048577", Limit::Nodes, 1_048_577),
    (2, "arcs 4194305", Limit::Arcs, 4_194_305),
    (3, "k 345600000001", Limit::K, 345_600_000_001),
    (5, "a 0 1 1000000001 0", Limit::Cost, 1_000_000_001),
    (5, "a 0 1 9 4294967296", Limit::Weight, 4_294_967_296),
    (6, "g 1000000000000001", Limit::Units, 1_000_000_000_000_001),
];

// A line with a number that breaks a rule.
const RULES: [(usize, &str, NetFault); 4] = [
    (
        4,
        "destination 2",
        NetFault::NodeOutside { arc: None, node: 2 },
    ),
    (
        5,
        "a 2 1 60000 7000",
        NetFault::NodeOutside {
            arc: Some(0),
            node: 2,
        },
    ),
    (5, "a 0 1 0 7000", NetFault::ZeroCost { arc: 0 }),
    (5, "a 0 1 60000 0", NetFault::ZeroWeight { arc: 0 }),
];

#[test]
fn faults_are_placed(rt: HostRuntime) -> Result<(), Fail> {
    for (place, line, at) in &WRONG_BYTES {
        let text = text_with(rt.alloc(), *place, line)?;
        let refused = Refused::Grammar { at: *at };
        assert_eq!(rt; refusal(rt.alloc(), &text), Some(refused), "{line}");
    }
    for (place, line, limit, count) in &RANGES {
        let text = text_with(rt.alloc(), *place, line)?;
        let refused = Refused::Range {
            limit: *limit,
            count: *count,
        };
        assert_eq!(rt; refusal(rt.alloc(), &text), Some(refused), "{line}");
    }
    for (place, line, fault) in &RULES {
        let text = text_with(rt.alloc(), *place, line)?;
        let refused = Refused::Arc(*fault);
        assert_eq!(rt; refusal(rt.alloc(), &text), Some(refused), "{line}");
    }
    Ok(())
}

// Faults of two lines: the units of two nodes together, and an arc whose tail is below that of the arc before.
const LONGER: [(&[u8], Refused); 2] = [
    (
        b"assignment-network 1\nnodes 3\narcs 0\nk 0\ndestination 1\ng 1\ng 0\ng 1000000000000000\nend\n",
        Refused::Range {
            limit: Limit::Units,
            count: 1_000_000_000_000_001,
        },
    ),
    (
        b"assignment-network 1\nnodes 2\narcs 2\nk 0\ndestination 1\na 1 0 5 -\na 0 1 5 -\ng 1\ng 0\nend\n",
        Refused::Arc(NetFault::NotGrouped { arc: 1 }),
    ),
];

// A text that ends early, bytes after the end, and the longer texts.
#[test]
fn ends_are_judged(rt: HostRuntime) -> Result<(), Fail> {
    let mut text = text_with(rt.alloc(), 0, ONE_LINE[0])?;
    assert_eq!(rt; text.len(), 92);
    for end in [0, 20, 21, 62, 88, 91] {
        let refused = Refused::Grammar { at: end as u64 };
        assert_eq!(rt; refusal(rt.alloc(), &text[..end]), Some(refused), "{end}");
    }
    text.push(b'\n')?;
    let refused = Refused::Grammar { at: 92 };
    assert_eq!(rt; refusal(rt.alloc(), &text), Some(refused));
    for (text, refused) in &LONGER {
        assert_eq!(rt; refusal(rt.alloc(), text), Some(*refused));
    }
    Ok(())
}

const BOARDED: NetArc = NetArc {
    tail: 0,
    head: 1,
    cost: 60_000,
    weight: Some(7_000),
};

const FREE: NetArc = NetArc {
    tail: 2,
    head: 0,
    cost: 1_000_000_000,
    weight: None,
};

const GREATEST: NetArc = NetArc {
    tail: 0,
    head: 0,
    cost: 1,
    weight: Some(4_294_967_295),
};

// Nodes, arcs, `k`, the destination and the demand.
const PROBLEMS: [(u32, &[NetArc], u64, u32, &[u64]); 4] = [
    (
        3,
        &[BOARDED, FREE],
        345_600_000_000,
        1,
        &[1, 0, 999_999_999_999_999],
    ),
    (1, &[], 0, 0, &[0]),
    (1, &[GREATEST], 1, 0, &[0]),
    (2, &[GREATEST, BOARDED], 1_800_000_000, 1, &[10, 0]),
];

// What is written is read as it was.
#[test]
fn written_problems_are_read(rt: HostRuntime) -> Result<(), Fail> {
    for (nodes, arcs, k, dest, demand) in &PROBLEMS {
        let net = Network::new(*nodes, arcs.to_vec(rt.alloc())?, *k).map_err(|_| "a network")?;
        assert!(rt; net.nodes() as usize == demand.len());
        let mut out = MemorySink::new(rt.alloc(), 1000, 1000, Vec::new(rt.alloc()))?;
        write_network(&mut out, &net, *dest, demand).map_err(|_| "room")?;
        let read = read_network(rt.alloc(), out.bytes()).map_err(|_| "a network text")?;
        assert_eq!(rt; read.net.nodes(), *nodes);
        assert_eq!(rt; read.net.k(), *k);
        assert_eq!(rt; read.net.arcs() as usize, arcs.len());
        for number in 0..read.net.arcs() {
            assert_eq!(rt; Some(read.net.arc(number)), arcs.get(number as usize));
        }
        assert_eq!(rt; read.dest, *dest);
        assert_eq!(rt; read.demand.as_slice(), *demand);
    }
    Ok(())
}

// A problem that was made by hand is written too.
#[test]
fn a_problem_is_made(rt: HostRuntime) -> Result<(), Fail> {
    let problem = Problem {
        net: Network::new(1, Vec::new(rt.alloc()), 0).map_err(|_| "a network")?,
        dest: 0,
        demand: Units::new([0].to_vec(rt.alloc())?),
    };
    assert!(rt; problem.net.nodes() as usize == problem.demand.as_slice().len());
    let mut out = MemorySink::new(rt.alloc(), 1000, 1000, Vec::new(rt.alloc()))?;
    write_network(
        &mut out,
        &problem.net,
        problem.dest,
        problem.demand.as_slice(),
    )
    .map_err(|_| "room")?;
    let text = b"assignment-network 1\nnodes 1\narcs 0\nk 0\ndestination 0\ng 0\nend\n";
    assert_eq!(rt; out.bytes(), text.as_slice());
    Ok(())
}
