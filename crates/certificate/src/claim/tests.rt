//! Solved networks: units, cost, bound and slack, with values worked out by hand.

use crate::checking::{Verdict, check_text};
use std::test::Fail;

// Two lines, of which the second is as good as waiting for the first: h = 450,000.
const TWO_LINES: &[u8] = b"assignment-certificate 1\nnodes 2\narcs 2\nk 1800000000\ndestination 1\n\
a 0 1 600000 6000\na 0 1 899999 4000\ng 1\ng 0\nu 899999\nu 0\nv 1\nv 0\nq 300000\nq 0\nend\n";

// Ten passengers on two lines, 6 and 4: 6 * 600,000 + 4 * 900,000 + 1,800,000.
const SHARED: &[u8] = b"assignment-certificate 1\nnodes 2\narcs 2\nk 1800000000\ndestination 1\n\
a 0 1 600000 6000\na 0 1 900000 4000\ng 10\ng 0\nu 900000\nu 0\nv 6\nv 4\nq 1800000\nq 0\nend\n";

// Two passengers on three equal lines: a label of 600,000 + 1,800,000,000 / 18,000.
const THREE_LINES: &[u8] =
    b"assignment-certificate 1\nnodes 2\narcs 3\nk 1800000000\ndestination 1\n\
a 0 1 600000 6000\na 0 1 600000 6000\na 0 1 600000 6000\ng 2\ng 0\nu 700000\nu 0\nv 1\nv 1\nv 0\nq 300000\nq 0\nend\n";

// Five passengers who walk, since the line would take as long.
const WALKED: &[u8] = b"assignment-certificate 1\nnodes 2\narcs 2\nk 1800000000\ndestination 1\n\
a 0 1 600000 6000\na 0 1 900000 -\ng 5\ng 0\nu 900000\nu 0\nv 0\nv 5\nq 0\nq 0\nend\n";

// The four stops of Spiess and Florian (1989) at 84 ticks a minute: 12 * 27.75 minutes.
const FOUR_STOPS: &[u8] = b"assignment-certificate 1\nnodes 6\narcs 10\nk 2520\ndestination 3\n\
a 0 3 2100 5\na 0 4 588 5\na 1 2 504 5\na 1 5 336 2\na 2 3 336 2\na 2 3 840 10\na 4 1 1 -\na 4 2 504 -\na 5 3 336 -\na 5 2 1 -\n\
g 12\ng 0\ng 0\ng 0\ng 0\ng 0\nu 2331\nu 1602\nu 966\nu 0\nu 1470\nu 336\n\
v 6\nv 6\nv 0\nv 0\nv 1\nv 5\nv 0\nv 6\nv 0\nv 0\nq 3024\nq 0\nq 1260\nq 0\nq 0\nq 0\nend\n";

// Nobody travels: no destination counts, so the slack is 0.
const NOBODY: &[u8] = b"assignment-certificate 1\nnodes 2\narcs 1\nk 1800000000\ndestination 1\n\
a 0 1 60000 7000\ng 0\ng 0\nu 317142\nu 0\nv 0\nq 0\nq 0\nend\n";

// Units, cost, bound and slack of each.
const SOLVED: [(&[u8], u64, u128, u128, u128); 6] = [
    (TWO_LINES, 1, 900_000, 899_999, 900_001),
    (SHARED, 10, 9_000_000, 9_000_000, 900_010),
    (THREE_LINES, 2, 1_500_000, 1_400_000, 600_002),
    (WALKED, 5, 4_500_000, 4_500_000, 600_005),
    (FOUR_STOPS, 12, 27_972, 27_972, 7_596),
    (NOBODY, 0, 0, 0, 0),
];

#[test]
fn solved_networks_are_valid(rt: HostRuntime) -> Result<(), Fail> {
    for (text, units, cost, bound, slack) in &SOLVED {
        let verdict = Verdict {
            units: *units,
            cost: *cost,
            bound: *bound,
            slack: *slack,
        };
        assert_eq!(rt; check_text(rt.alloc(), text), Ok(verdict), "cost {cost}");
    }
    Ok(())
}
