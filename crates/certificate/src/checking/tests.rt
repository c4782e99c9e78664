//! Whole texts: what is answered, with values worked out by hand from the format.

mod claims;
mod limits;
mod lines;
mod pieces;

use super::{Verdict, check_text};
use std::alloc::{AllocError, Global};
use std::test::Fail;

// One line from node 0 to node 1, which runs 7 times in an hour, and one passenger.
const ONE_LINE: [&str; 14] = [
    "assignment-certificate 1",
    "nodes 2",
    "arcs 1",
    "k 1800000000",
    "destination 1",
    "a 0 1 60000 7000",
    "g 1",
    "g 0",
    "u 317142",
    "u 0",
    "v 1",
    "q 257143",
    "q 0",
    "end",
];

// The text of these lines, with another line at one place.
fn text_with(
    alloc: Global,
    lines: &[&str],
    place: usize,
    other: &str,
) -> Result<Vec<u8>, AllocError> {
    let mut text = Vec::new(alloc);
    for (i, line) in lines.iter().enumerate() {
        let line = if i == place { other } else { *line };
        text.extend_from_slice(line.as_bytes())?;
        text.push(b'\n')?;
    }
    Ok(text)
}

// The text of the one line.
fn one_line(alloc: Global) -> Result<Vec<u8>, AllocError> {
    text_with(alloc, &ONE_LINE, 0, ONE_LINE[0])
}

// Cost 60,000 + 257,143; bound 317,142; h = 1,800,000,000 / 7,000 = 257,143 rounded up, and the
// slack is 1 * (1 + 2 * h).
const ONE_LINE_VERDICT: Verdict = Verdict {
    units: 1,
    cost: 317_143,
    bound: 317_142,
    slack: 514_287,
};

#[test]
fn one_line_is_valid(rt: HostRuntime) -> Result<(), Fail> {
    let text = one_line(rt.alloc())?;
    assert_eq!(rt; text.len(), 126);
    assert_eq!(rt; check_text(rt.alloc(), &text), Ok(ONE_LINE_VERDICT));
    Ok(())
}
