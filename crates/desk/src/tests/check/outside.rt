//! Words, the folder and the output.

use super::super::running::{Ending, Trial, expect, expect_over, folder_of_long_file};
use super::ONE_LINE;
use std::test::Fail;

const FILES: [(&str, &str); 1] = [("c", ONE_LINE)];

#[test]
fn refuses_words_and_missing_files(rt: HostRuntime) -> Result<(), Fail> {
    let cases: [(&[&str], &str); 8] = [
        (&[], "error 2: usage words\n"),
        (&["check"], "error 2: usage words\n"),
        (&["check", "c", "d"], "error 2: usage words\n"),
        (&["check", "--file", "c"], "error 2: usage words\n"),
        (&["check", "-c"], "error 2: usage words\n"),
        (&["chek", "c"], "error 2: usage words\n"),
        (&["check", "other"], "error 2: usage no file other\n"),
        (&["check", "help"], "error 2: usage no file help\n"),
    ];
    for (words, fault) in cases {
        expect(&rt, Trial::new(&FILES, words), Ending::refused(2, fault))?;
    }
    Ok(())
}

#[test]
fn tells_faults_of_the_folder_and_of_the_output(rt: HostRuntime) -> Result<(), Fail> {
    let trial = Trial::new(&FILES, &["check", "c"]);
    // Call 0 begins the file, call 1 is the first read.
    for call in [0, 1] {
        let trial = Trial {
            failing: Some(call),
            ..trial
        };
        expect(&rt, trial, Ending::refused(8, "error 8: read fault\n"))?;
    }
    let trial = Trial { room: 5, ..trial };
    let ending = Ending {
        code: 9,
        out: "valid",
        err: "error 9: write fault 5\n",
    };
    expect(&rt, trial, ending)?;
    Ok(())
}

#[test]
fn a_failed_read_comes_before_a_refusal(rt: HostRuntime) -> Result<(), Fail> {
    // A text that is wrong from its first byte on: two reads give its 2,000 bytes, and the third fails.
    let wrong = "x".repeat(rt.alloc(), 2000)?;
    let files = [("c", wrong.as_str())];
    let trial = Trial::new(&files, &["check", "c"]);
    expect(
        &rt,
        trial,
        Ending::refused(12, "error 12: refused grammar at 0\n"),
    )?;
    let trial = Trial {
        failing: Some(3),
        ..trial
    };
    expect(&rt, trial, Ending::refused(8, "error 8: read fault\n"))?;
    Ok(())
}

#[test]
fn refuses_a_file_past_its_limit(rt: HostRuntime) -> Result<(), Fail> {
    let folder = folder_of_long_file(&rt, "c")?;
    let ending = Ending::refused(7, "error 7: range file 268435457\n");
    expect_over(&rt, folder, Trial::new(&[], &["check", "c"]), ending)?;
    Ok(())
}

#[test]
fn shows_a_path_in_printable_characters(rt: HostRuntime) -> Result<(), Fail> {
    let long = "a/path/with\ta/tab/and/more/than/sixty/bytes/that/goes/on/and/on/to/its/end";
    let shown =
        "error 2: usage no file a/path/with?a/tab/and/more/than/sixty/bytes/that/goes/on/and\n";
    expect(
        &rt,
        Trial::new(&FILES, &["check", long]),
        Ending::refused(2, shown),
    )?;
    let empty = "error 2: usage no file -\n";
    expect(
        &rt,
        Trial::new(&FILES, &["check", ""]),
        Ending::refused(2, empty),
    )?;
    Ok(())
}
