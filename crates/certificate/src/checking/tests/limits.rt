//! The greatest number of each limit: it is read, and the answer is about something else.

use super::{ONE_LINE, text_with};
use crate::checking::{Verdict, check_text};
use crate::refused::{Limit, Refused};
use lp_model::NetFault;
use std::test::Fail;

// A line with the greatest number that is read there, and the answer. The `k` line of 12 digits has
// two bytes more than before, the `nodes` and `arcs` lines of 7 digits have six, so the `u` line
// begins at byte 98 where a `g` line is due, and the first `g` line at 90 where an `a` line is due.
const GREATEST: [(usize, &str, Result<Verdict, Refused>); 9] = [
    (1, "nodes 1048576", Err(Refused::Grammar { at: 98 })),
    (2, "arcs 4194304", Err(Refused::Grammar { at: 90 })),
    // 345,600,000,000 * 1 against 7,000 * 257,143.
    (
        3,
        "k 345600000000",
        Err(Refused::WaitShort {
            arc: 0,
            left: 345_600_000_000,
            right: 1_800_001_000,
        }),
    ),
    // 1,000,000,000 + 257,143, and the labels stay: they are lower than they need to be.
    (
        5,
        "a 0 1 1000000000 7000",
        Ok(Verdict {
            units: 1,
            cost: 1_000_257_143,
            bound: 317_142,
            slack: 514_287,
        }),
    ),
    // 4,294,967,295 * (317,142 - 60,000) against k.
    (
        5,
        "a 0 1 60000 4294967295",
        Err(Refused::DualBroken {
            node: 0,
            arc: None,
            left: 1_104_416_480_170_890,
            right: 1_800_000_000,
        }),
    ),
    (
        6,
        "g 1000000000000000",
        Err(Refused::NotConserved {
            node: 0,
            due: 1_000_000_000_000_000,
            sent: 1,
        }),
    ),
    // 7,000 * (9,223,372,036,854,775,807 - 60,000) against k.
    (
        8,
        "u 9223372036854775807",
        Err(Refused::DualBroken {
            node: 0,
            arc: None,
            left: 64_563_604_257_983_010_649_000,
            right: 1_800_000_000,
        }),
    ),
    (
        10,
        "v 1000000000000000",
        Err(Refused::NotConserved {
            node: 0,
            due: 1,
            sent: 1_000_000_000_000_000,
        }),
    ),
    // A wait may be longer than it needs to be: 60,000 + 10^27.
    (
        11,
        "q 1000000000000000000000000000",
        Ok(Verdict {
            units: 1,
            cost: 1_000_000_000_000_000_000_000_060_000,
            bound: 317_142,
            slack: 514_287,
        }),
    ),
];

#[test]
fn the_greatest_numbers_are_read(rt: HostRuntime) -> Result<(), Fail> {
    for (place, line, answer) in &GREATEST {
        let text = text_with(rt.alloc(), &ONE_LINE, *place, line)?;
        assert_eq!(rt; check_text(rt.alloc(), &text), *answer, "at {line}");
    }
    Ok(())
}

// The demand of two nodes adds up to one above the limit of units.
#[test]
fn units_are_summed(rt: HostRuntime) -> Result<(), Fail> {
    let text =
        b"assignment-certificate 1\nnodes 3\narcs 0\nk 0\ndestination 2\ng 1\ng 1000000000000000\n";
    let refused = Refused::Range {
        limit: Limit::Units,
        count: 1_000_000_000_000_001,
    };
    assert_eq!(rt; check_text(rt.alloc(), text), Err(refused));
    Ok(())
}

// The head is judged before the cost and the weight.
#[test]
fn the_first_fault_of_an_arc_is_answered(rt: HostRuntime) -> Result<(), Fail> {
    let text = text_with(rt.alloc(), &ONE_LINE, 5, "a 0 2 1000000001 0")?;
    let fault = NetFault::NodeOutside {
        arc: Some(0),
        node: 2,
    };
    assert_eq!(rt; check_text(rt.alloc(), &text), Err(Refused::Arc(fault)));
    Ok(())
}
