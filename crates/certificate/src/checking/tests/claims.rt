//! Claims that fail, and what is told of them.

use super::{ONE_LINE, text_with};
use crate::checking::check_text;
use crate::refused::Refused;
use std::test::Fail;

// A claim that fails, with its two sides. Savings: 7,000 * (317,143 - 60,000) = 1,800,001,000.
// Where two are on board the wait is short too, and conservation comes first.
pub const FAILURES: [(usize, &str, Refused); 6] = [
    (
        10,
        "v 0",
        Refused::NotConserved {
            node: 0,
            due: 1,
            sent: 0,
        },
    ),
    (
        10,
        "v 2",
        Refused::NotConserved {
            node: 0,
            due: 1,
            sent: 2,
        },
    ),
    (
        11,
        "q 257142",
        Refused::WaitShort {
            arc: 0,
            left: 1_800_000_000,
            right: 1_799_994_000,
        },
    ),
    (
        8,
        "u 317143",
        Refused::DualBroken {
            node: 0,
            arc: None,
            left: 1_800_001_000,
            right: 1_800_000_000,
        },
    ),
    (
        9,
        "u 1",
        Refused::DualBroken {
            node: 1,
            arc: None,
            left: 1,
            right: 0,
        },
    ),
    (
        5,
        "a 0 1 60000 -",
        Refused::DualBroken {
            node: 0,
            arc: Some(0),
            left: 317_142,
            right: 60_000,
        },
    ),
];

#[test]
fn claims_are_judged(rt: HostRuntime) -> Result<(), Fail> {
    for (place, line, refused) in &FAILURES {
        let text = text_with(rt.alloc(), &ONE_LINE, *place, line)?;
        assert_eq!(rt; check_text(rt.alloc(), &text), Err(*refused), "at {line}");
    }
    Ok(())
}
