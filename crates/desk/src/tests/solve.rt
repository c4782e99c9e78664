//! Runs of `solve`.

use super::running::{Ending, Trial, expect, expect_on, expect_over, folder_of_long_file};
use super::texts::replaced;
use std::alloc::AllocError;
use std::process::Abort;
use std::test::Fail;

// The problem of one line, which runs seven times in the window, with a further node.
const ONE_LINE: &str = "assignment-network 1
nodes 3
arcs 1
k 1800000000
destination 1
a 0 1 60000 7000
g 1
g 0
g 0
end
";

#[test]
fn prints_a_certificate_that_check_accepts(rt: HostRuntime) -> Result<(), Fail> {
    // Each row: the arcs and the demand, then labels, volumes and waits, then the verdict. The
    // slack is b * (g + 2 * h * d): b is 1, as node 0 alone has a boarding arc; g is the units; d
    // is 1, as there are some; and h is 1800000000 over the least weight: 450000 for 4000, 300000
    // for 6000 and, rounded up, 257143 for 7000.
    let tables = [
        // Against 900000 the lines save 6000 * 300000 + 4000 * 1, above k; against 899999 they save
        // 6000 * 299999, which is not. So the label is 899999, and both are boarded. Of one unit
        // the remainders are 6000 and 4000: it goes to the first, and waits 1800000000 / 6000 =
        // 300000. The slack is 1 + 2 * 450000.
        (
            "nodes 2\narcs 2\nk 1800000000\ndestination 1\na 0 1 600000 6000\na 0 1 899999 4000\ng 1\ng 0\n",
            "u 899999\nu 0\nv 1\nv 0\nq 300000\nq 0\n",
            "valid\nunits 1\ncost 900000\nbound 899999\ngap 1\nslack 900001\n",
        ),
        // The second leads to just the label 900000, so both are boarded: 10 units over 6000 and
        // 4000 are 6 and 4, and 1800000000 * 6 / 6000 = 1800000. The slack is 10 + 2 * 450000.
        (
            "nodes 2\narcs 2\nk 1800000000\ndestination 1\na 0 1 600000 6000\na 0 1 900000 4000\ng 10\ng 0\n",
            "u 900000\nu 0\nv 6\nv 4\nq 1800000\nq 0\n",
            "valid\nunits 10\ncost 9000000\nbound 9000000\ngap 0\nslack 900010\n",
        ),
        // Three alike: 600000 + 1800000000 / 18000 = 700000, and of two units the third gets none.
        // The slack is 2 + 2 * 300000.
        (
            "nodes 2\narcs 3\nk 1800000000\ndestination 1\na 0 1 600000 6000\na 0 1 600000 6000\na 0 1 600000 6000\ng 2\ng 0\n",
            "u 700000\nu 0\nv 1\nv 1\nv 0\nq 300000\nq 0\n",
            "valid\nunits 2\ncost 1500000\nbound 1400000\ngap 100000\nslack 600002\n",
        ),
        // A free arc leads to just the label, so nobody waits. The slack is 5 + 2 * 300000.
        (
            "nodes 2\narcs 2\nk 1800000000\ndestination 1\na 0 1 600000 6000\na 0 1 900000 -\ng 5\ng 0\n",
            "u 900000\nu 0\nv 0\nv 5\nq 0\nq 0\n",
            "valid\nunits 5\ncost 4500000\nbound 4500000\ngap 0\nslack 600005\n",
        ),
        // 60000 + 257142.86 rounded down; the node that does not reach has the greatest label, and
        // the wait is 1800000000 / 7000 rounded up. The slack is 1 + 2 * 257143.
        (
            "nodes 3\narcs 1\nk 1800000000\ndestination 1\na 0 1 60000 7000\ng 1\ng 0\ng 0\n",
            "u 317142\nu 0\nu 317142\nv 1\nq 257143\nq 0\nq 0\n",
            "valid\nunits 1\ncost 317143\nbound 317142\ngap 1\nslack 514287\n",
        ),
    ];
    for (problem, claims, lines) in tables {
        expect_certificate(&rt, problem, claims, lines)?;
    }
    Ok(())
}

// Asserts that the problem is solved by a certificate with these claims, of which `check` prints
// these lines.
fn expect_certificate(
    rt: &(impl Abort + AllocGlobal),
    problem: &str,
    claims: &str,
    lines: &str,
) -> Result<(), AllocError> {
    let alloc = rt.alloc();
    let text = format!(in alloc; "assignment-network 1\n{problem}end\n")?;
    let certificate = format!(in alloc; "assignment-certificate 1\n{problem}{claims}end\n")?;
    let solved = Ending::printed(certificate.as_str());
    expect_on(rt, ("n", text.as_str()), &["solve", "n"], solved)?;
    let checked = Ending::printed(lines);
    expect_on(rt, ("c", certificate.as_str()), &["check", "c"], checked)
}

#[test]
fn tells_why_there_is_no_certificate(rt: HostRuntime) -> Result<(), Fail> {
    // A line of the text, another in its place, the status and the fault text.
    let changes = [
        (
            "g 0\nend\n",
            "g 1\nend\n",
            6,
            "error 6: unreachable node 2\n",
        ),
        (
            "assignment-network 1\n",
            "assignment-certificate 1\n",
            12,
            "error 12: refused grammar at 11\n",
        ),
        (
            "g 0\nend\n",
            "g 0\n",
            12,
            "error 12: refused grammar at 92\n",
        ),
        (
            "g 0\ng 0\n",
            "g 1\ng 0\n",
            12,
            "error 12: refused grammar at 86\n",
        ),
        (
            "k 1800000000\n",
            "k 345600000001\n",
            12,
            "error 12: refused range k 345600000001\n",
        ),
        (
            "a 0 1 60000 7000\n",
            "a 0 1 60000 0\n",
            12,
            "error 12: refused zero-weight arc 0\n",
        ),
    ];
    for (line, changed, code, fault) in changes {
        let text = replaced(rt.alloc(), ONE_LINE, line, changed)?;
        let ending = Ending::refused(code, fault);
        expect_on(&rt, ("n", text.as_str()), &["solve", "n"], ending)?;
    }
    Ok(())
}

#[test]
fn tells_faults_of_words_folder_and_output(rt: HostRuntime) -> Result<(), Fail> {
    // The words, the call that fails, the room of the output; the status, the output and the fault text.
    let cases: [(&[&str], u64, usize, u8, &str, &str); 6] = [
        (&["solve"], 9, 1000, 2, "", "error 2: usage words\n"),
        (
            &["solve", "other"],
            9,
            1000,
            2,
            "",
            "error 2: usage no file other\n",
        ),
        (&["solve", "n"], 0, 1000, 8, "", "error 8: read fault\n"),
        (&["solve", "n"], 1, 1000, 8, "", "error 8: read fault\n"),
        (
            &["solve", "n"],
            9,
            5,
            9,
            "assig",
            "error 9: write fault 5\n",
        ),
        (&["solve", "n"], 9, 0, 9, "", "error 9: write fault 0\n"),
    ];
    let files = [("n", ONE_LINE)];
    for (words, call, room, code, out, err) in cases {
        let trial = Trial {
            failing: Some(call),
            room,
            ..Trial::new(&files, words)
        };
        expect(&rt, trial, Ending { code, out, err })?;
    }
    Ok(())
}

#[test]
fn refuses_a_file_past_its_limit(rt: HostRuntime) -> Result<(), Fail> {
    let folder = folder_of_long_file(&rt, "n")?;
    let ending = Ending::refused(7, "error 7: range file 268435457\n");
    expect_over(&rt, folder, Trial::new(&[], &["solve", "n"]), ending)?;
    Ok(())
}
