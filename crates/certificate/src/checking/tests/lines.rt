//! Lines that are faulty, and where.

use super::{ONE_LINE, one_line, text_with};
use crate::checking::check_text;
use crate::refused::{Limit, Refused};
use lp_model::NetFault;
use std::test::Fail;

// A text that ends early, and bytes after the end: the place is the length that is right so far.
#[test]
fn ends_are_judged(rt: HostRuntime) -> Result<(), Fail> {
    let mut text = one_line(rt.alloc())?;
    assert_eq!(rt;
        check_text(rt.alloc(), b""),
        Err(Refused::Grammar { at: 0 })
    );
    assert_eq!(rt; text.len(), 126);
    for end in [1, 24, 25, 98, 125] {
        let refused = Refused::Grammar { at: end as u64 };
        assert_eq!(rt;
            check_text(rt.alloc(), &text[..end]),
            Err(refused),
            "at {end}"
        );
    }
    text.push(b'\n')?;
    assert_eq!(rt;
        check_text(rt.alloc(), &text),
        Err(Refused::Grammar { at: 126 })
    );
    Ok(())
}

// A line with a byte that is wrong, and its place. The `a` line begins at byte 67, the `g` lines at
// 84 and 88, the `u` lines at 92 and 101, the `v` line at 105, the last line at 122.
pub const WRONG_BYTES: [(usize, &str, u64); 14] = [
    (0, "assignment-certificate 2", 23),
    (1, "nodes 02", 32),
    (1, "nodes  2", 31),
    (1, "nodes ", 31),
    (2, "arcs -1", 38),
    (3, "k 12345678901234567890123456789", 70),
    (5, "a 0 1 60000", 78),
    (5, "a 0 1 60000 -1", 80),
    (7, "g 1", 90),
    (7, "g 00", 91),
    (8, "u 0317142", 95),
    (9, "v 0", 101),
    (10, "q 1", 105),
    (13, "end ", 125),
];

#[test]
fn wrong_bytes_are_placed(rt: HostRuntime) -> Result<(), Fail> {
    for (place, line, at) in &WRONG_BYTES {
        let text = text_with(rt.alloc(), &ONE_LINE, *place, line)?;
        let refused = Refused::Grammar { at: *at };
        assert_eq!(rt; check_text(rt.alloc(), &text), Err(refused), "at {line}");
    }
    Ok(())
}

// A line with a number one above its limit, and the greatest number there is. Of two faulty lines the
// first decides.
pub const RANGES: [(usize, &str, Limit, u128); 11] = [
    (1, "nodes 1048577", Limit::Nodes, 1_048_577),
    (2, "arcs 4194305", Limit::Arcs, 4_194_305),
    (3, "k 345600000001", Limit::K, 345_600_000_001),
    (
        3,
        "k 9999999999999999999999999999",
        Limit::K,
        9_999_999_999_999_999_999_999_999_999,
    ),
    (5, "a 0 1 1000000001 0", Limit::Cost, 1_000_000_001),
    (5, "a 0 1 60000 4294967296", Limit::Weight, 4_294_967_296),
    (6, "g 1000000000000001", Limit::Units, 1_000_000_000_000_001),
    (
        8,
        "u 9223372036854775808",
        Limit::Label,
        9_223_372_036_854_775_808,
    ),
    (
        10,
        "v 1000000000000001",
        Limit::Volume,
        1_000_000_000_000_001,
    ),
    (
        10,
        "v 1000000000000001\nq 1000000000000000000000000001",
        Limit::Volume,
        1_000_000_000_000_001,
    ),
    (
        11,
        "q 1000000000000000000000000001",
        Limit::Wait,
        1_000_000_000_000_000_000_000_000_001,
    ),
];

#[test]
fn limits_are_named(rt: HostRuntime) -> Result<(), Fail> {
    for (place, line, limit, count) in &RANGES {
        let text = text_with(rt.alloc(), &ONE_LINE, *place, line)?;
        let refused = Refused::Range {
            limit: *limit,
            count: *count,
        };
        assert_eq!(rt; check_text(rt.alloc(), &text), Err(refused), "at {line}");
    }
    Ok(())
}

// A line that breaks a rule of networks: the first of its faults.
pub const ARC_FAULTS: [(usize, &str, NetFault); 6] = [
    (
        4,
        "destination 2",
        NetFault::NodeOutside { arc: None, node: 2 },
    ),
    (
        5,
        "a 2 3 0 0",
        NetFault::NodeOutside {
            arc: Some(0),
            node: 2,
        },
    ),
    (
        5,
        "a 0 3 0 0",
        NetFault::NodeOutside {
            arc: Some(0),
            node: 3,
        },
    ),
    (5, "a 0 1 0 7000", NetFault::ZeroCost { arc: 0 }),
    (5, "a 0 1 60000 0", NetFault::ZeroWeight { arc: 0 }),
    (5, "a 1 1 0 0", NetFault::ZeroCost { arc: 0 }),
];

#[test]
fn arcs_are_judged(rt: HostRuntime) -> Result<(), Fail> {
    for (place, line, fault) in &ARC_FAULTS {
        let text = text_with(rt.alloc(), &ONE_LINE, *place, line)?;
        assert_eq!(rt;
            check_text(rt.alloc(), &text),
            Err(Refused::Arc(*fault)),
            "at {line}"
        );
    }
    let falling =
        b"assignment-certificate 1\nnodes 2\narcs 2\nk 0\ndestination 0\na 1 0 1 -\na 0 1 1 -\n";
    let fault = NetFault::NotGrouped { arc: 1 };
    assert_eq!(rt; check_text(rt.alloc(), falling), Err(Refused::Arc(fault)));
    Ok(())
}
