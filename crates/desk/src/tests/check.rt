//! Runs of `check`.

mod outside;

use super::running::{Ending, Trial, expect};
use super::texts::replaced;
use std::alloc::AllocError;
use std::process::Abort;
use std::test::Fail;

// The certificate of one line, which runs seven times in the window.
const ONE_LINE: &str = "assignment-certificate 1
nodes 2
arcs 1
k 1800000000
destination 1
a 0 1 60000 7000
g 1
g 0
u 317142
u 0
v 1
q 257143
q 0
end
";

// Asserts that `check` of the text ends so. The file comes in pieces of seven bytes.
fn expect_verdict(
    rt: &(impl Abort + AllocGlobal),
    text: &str,
    ending: Ending<'_>,
) -> Result<(), AllocError> {
    let files = [("c", text)];
    let trial = Trial {
        in_pieces: true,
        ..Trial::new(&files, &["check", "c"])
    };
    expect(rt, trial, ending)
}

#[test]
fn prints_the_verdict_of_a_valid_certificate(rt: HostRuntime) -> Result<(), Fail> {
    // h = ceil(1800000000 / 7000) = 257143, cost = 60000 + 257143, slack = 1 + 2 * 257143
    let one_line = "valid\nunits 1\ncost 317143\nbound 317142\ngap 1\nslack 514287\n";
    // The arcs are boarded from one stop; h = 450000 where the least weight is 4000, and 300000 where it is 6000.
    let tables = [
        (ONE_LINE, one_line),
        (
            "assignment-certificate 1\nnodes 2\narcs 2\nk 1800000000\ndestination 1\na 0 1 600000 6000\na 0 1 899999 4000\ng 1\ng 0\nu 899999\nu 0\nv 1\nv 0\nq 300000\nq 0\nend\n",
            "valid\nunits 1\ncost 900000\nbound 899999\ngap 1\nslack 900001\n",
        ),
        (
            "assignment-certificate 1\nnodes 2\narcs 2\nk 1800000000\ndestination 1\na 0 1 600000 6000\na 0 1 900000 4000\ng 10\ng 0\nu 900000\nu 0\nv 6\nv 4\nq 1800000\nq 0\nend\n",
            "valid\nunits 10\ncost 9000000\nbound 9000000\ngap 0\nslack 900010\n",
        ),
        (
            "assignment-certificate 1\nnodes 2\narcs 3\nk 1800000000\ndestination 1\na 0 1 600000 6000\na 0 1 600000 6000\na 0 1 600000 6000\ng 2\ng 0\nu 700000\nu 0\nv 1\nv 1\nv 0\nq 300000\nq 0\nend\n",
            "valid\nunits 2\ncost 1500000\nbound 1400000\ngap 100000\nslack 600002\n",
        ),
        (
            "assignment-certificate 1\nnodes 2\narcs 2\nk 1800000000\ndestination 1\na 0 1 600000 6000\na 0 1 900000 -\ng 5\ng 0\nu 900000\nu 0\nv 0\nv 5\nq 0\nq 0\nend\n",
            "valid\nunits 5\ncost 4500000\nbound 4500000\ngap 0\nslack 600005\n",
        ),
    ];
    for (text, lines) in tables {
        expect_verdict(&rt, text, Ending::printed(lines))?;
    }
    Ok(())
}

#[test]
fn tells_what_is_wrong_with_a_text(rt: HostRuntime) -> Result<(), Fail> {
    let changes = [
        (
            "u 317142\n",
            "u 0317142\n",
            "error 12: refused grammar at 95\n",
        ),
        (
            "v 1\n",
            "v 0\n",
            "error 12: refused not-conserved node 0 due 1 sent 0\n",
        ),
        (
            "q 257143\n",
            "q 257142\n",
            "error 12: refused wait-short arc 0 left 1800000000 right 1799994000\n",
        ),
        (
            "u 317142\n",
            "u 317143\n",
            "error 12: refused dual-broken node 0 arc - left 1800001000 right 1800000000\n",
        ),
        (
            "u 0\n",
            "u 1\n",
            "error 12: refused dual-broken node 1 arc - left 1 right 0\n",
        ),
        (
            "a 0 1 60000 7000\n",
            "a 0 1 0 7000\n",
            "error 12: refused zero-cost arc 0\n",
        ),
        (
            "k 1800000000\n",
            "k 345600000001\n",
            "error 12: refused range k 345600000001\n",
        ),
        (
            "destination 1\n",
            "destination 2\n",
            "error 12: refused node-outside arc - node 2\n",
        ),
    ];
    for (line, changed, fault) in changes {
        let text = replaced(rt.alloc(), ONE_LINE, line, changed)?;
        expect_verdict(&rt, text.as_str(), Ending::refused(12, fault))?;
    }
    Ok(())
}

#[test]
fn a_text_that_ends_early_is_refused_at_its_end(rt: HostRuntime) -> Result<(), Fail> {
    for end in 0..126usize {
        expect_refusal_at(&rt, end)?;
    }
    Ok(())
}

// Asserts that the certificate is refused at this place where it ends there.
fn expect_refusal_at(rt: &(impl Abort + AllocGlobal), end: usize) -> Result<(), AllocError> {
    let cut = ONE_LINE.get(..end).unwrap_or("");
    let fault = format!(in rt.alloc(); "error 12: refused grammar at {end}\n")?;
    expect_verdict(rt, cut, Ending::refused(12, fault.as_str()))
}
