//! Why there is no assignment.

use super::super::city::{
    ASSIGN, CITY, IN_SCENARIO, SUMMARY, expect_changed, expect_city, with_file, without,
};
use super::super::running::{Ending, Trial, expect};
use super::super::texts::replaced;
use std::test::Fail;

#[test]
fn refuses_other_words(rt: HostRuntime) -> Result<(), Fail> {
    // A part of the words, and another in its place.
    let cases = [
        ("assign", "assigns"),
        ("assign f", "f assign"),
        ("assign f", "assign"),
        ("assign f", "assign f g"),
        ("--date", "--dat"),
        ("--date 20250602", "--date"),
        (" --date 20250602", ""),
        (" --demand d", ""),
        ("--zones z", "--zones z --zones z"),
        ("--zones z", "--zones -z"),
        ("--zones z", "--zones z --help"),
        ("--zones z", "--zones z -h"),
        ("--zones z", "--zones z --version"),
        ("--zones z", "--zones z --walks w --walks w"),
        ("--demand d", "--demand d --scenario"),
        ("assign f", "help assign f"),
    ];
    for (part, changed) in cases {
        let words = replaced(rt.alloc(), ASSIGN, part, changed)?;
        expect_city(
            &rt,
            &CITY,
            words.as_str(),
            Ending::refused(2, "error 2: usage words\n"),
        )?;
    }
    Ok(())
}

#[test]
fn refuses_other_commands(rt: HostRuntime) -> Result<(), Fail> {
    let cases = [
        "",
        "help",
        "--help",
        "import demand d1 d",
        "serve --port 80 --connections 1",
    ];
    for words in cases {
        expect_city(
            &rt,
            &CITY,
            words,
            Ending::refused(2, "error 2: usage words\n"),
        )?;
    }
    Ok(())
}

#[test]
fn tells_a_fault_of_the_words(rt: HostRuntime) -> Result<(), Fail> {
    // A part of the words, another in its place, and the fault text.
    let cases = [
        ("20250602", "20250230", "error 2: usage date\n"),
        ("08:00:00", "07:00:00", "error 2: usage window\n"),
        ("--zones z", "--zones z9", "error 2: usage no file z9\n"),
        ("--zones z", "--zones=", "error 2: usage no file -\n"),
        ("--demand d", "--demand f/d", "error 2: usage no file f/d\n"),
        (
            "--demand d",
            "--demand d --walks w9",
            "error 2: usage no file w9\n",
        ),
        (
            "--demand d",
            "--demand d --scenario s9",
            "error 2: usage no file s9\n",
        ),
        // The date comes before the window, and both before the files.
        (
            "20250602 --from 07:00:00",
            "20250230 --from 08:00:00",
            "error 2: usage date\n",
        ),
        (
            "07:00:00 --to 08:00:00 --zones z",
            "07:00:00 --to 06:00:00 --zones z9",
            "error 2: usage window\n",
        ),
    ];
    for (part, changed, fault) in cases {
        let words = replaced(rt.alloc(), ASSIGN, part, changed)?;
        expect_city(&rt, &CITY, words.as_str(), Ending::refused(2, fault))?;
    }
    Ok(())
}

#[test]
fn tells_the_first_fault(rt: HostRuntime) -> Result<(), Fail> {
    // The folder and the paths of zones and demand, and further words; the status and the fault
    // text. Tables are taken for others, whose columns they do not have.
    let cases = [
        (
            ("g", "z", "d"),
            3,
            "error 3: feed missing-file file stops.txt row 0 column - field -\n",
        ),
        (
            ("g", "w", "d"),
            3,
            "error 3: feed missing-file file stops.txt row 0 column - field -\n",
        ),
        (("g", "z9", "d9"), 2, "error 2: usage no file z9\n"),
        (
            ("f", "z", "d9 --walks w9"),
            2,
            "error 2: usage no file d9\n",
        ),
        (
            ("f", "z", "d --walks w9 --scenario s9"),
            2,
            "error 2: usage no file w9\n",
        ),
        (("f", "w", "w --walks w9"), 2, "error 2: usage no file w9\n"),
        (
            ("f", "w", "w --walks z"),
            4,
            "error 4: demand missing-column file zones row 1 column zone_id field -\n",
        ),
        (
            ("f", "z", "w --walks z"),
            4,
            "error 4: demand missing-column file walks row 1 column from_stop_id field -\n",
        ),
        (
            ("f", "z", "z --scenario z"),
            4,
            "error 4: demand missing-column file demand row 1 column origin field -\n",
        ),
        (
            ("f", "z", "d --scenario z"),
            5,
            "error 5: scenario missing-column file scenario row 1 column edit field -\n",
        ),
    ];
    for ((folder, zones, demand), code, fault) in cases {
        let words = format!(in rt.alloc();
            "assign {folder} --date 20250602 --from 07:00:00 --to 08:00:00 --zones {zones} --demand {demand}"
        )?;
        expect_city(&rt, &CITY, words.as_str(), Ending::refused(code, fault))?;
    }
    Ok(())
}

#[test]
fn judges_the_words_before_it_reads(rt: HostRuntime) -> Result<(), Fail> {
    let words = replaced(rt.alloc(), ASSIGN, "20250602", "20250230")?;
    let words: Vec<&str> = words.as_str().split_whitespace().collect(rt.alloc())?;
    let trial = Trial {
        failing: Some(0),
        ..Trial::new(&CITY, words.as_slice())
    };
    expect(&rt, trial, Ending::refused(2, "error 2: usage date\n"))?;
    Ok(())
}

#[test]
fn shows_ids_and_fields_in_printable_characters(rt: HostRuntime) -> Result<(), Fail> {
    let zones = "zone_id,stop_id,walk_secs\nX,A,60\nZ\u{fc},B,30\n";
    let demand = "origin,destination,trips\nZ\u{fc},X,1\n";
    let files = with_file(rt.alloc(), &CITY, "z", zones)?;
    let files = with_file(rt.alloc(), files.as_slice(), "d", demand)?;
    let ending = Ending::refused(6, "error 6: unreachable Z?? X\n");
    expect_city(&rt, files.as_slice(), ASSIGN, ending)?;
    // A field of 61 bytes.
    let edit = "value\nscale,1234567890123456789012345678901234567890123456789012345678901,50\n";
    let shown =
        "error 5: scenario unknown-id file scenario row 2 column target field 123456789012345678901234567890123456789012345678901234567890\n";
    let change = ("s", "value\n", edit);
    expect_changed(&rt, IN_SCENARIO, change, Ending::refused(5, shown))?;
    Ok(())
}

#[test]
fn tells_a_fault_of_the_files(rt: HostRuntime) -> Result<(), Fail> {
    // The path, a part of its text, another in its place; the status and the fault text.
    let cases = [
        (
            ("f/stop_times.txt", ",stop_sequence", ",x"),
            3,
            "error 3: feed missing-column file stop_times.txt row 1 column stop_sequence field -\n",
        ),
        (
            ("f/stop_times.txt", "06:10:00,06:10:00", "05:59:00,05:59:00"),
            3,
            "error 3: feed times-fall file stop_times.txt row 3 column arrival_time field 05:59:00\n",
        ),
        (
            ("f/frequencies.txt", "600", "0"),
            3,
            "error 3: feed bad-headway file frequencies.txt row 2 column headway_secs field 0\n",
        ),
        (
            ("f/stops.txt", "stop_id,stop_name", "stop_id,stop_id"),
            3,
            "error 3: feed double-column file stops.txt row 1 column stop_id field -\n",
        ),
        (
            ("f/routes.txt", "R1\nR2", "R1\nR1"),
            3,
            "error 3: feed double-id file routes.txt row 3 column route_id field R1\n",
        ),
        (
            ("f/calendar.txt", "20251231", "20251331"),
            3,
            "error 3: feed bad-field file calendar.txt row 2 column end_date field 20251331\n",
        ),
        (
            ("d", "X,X,1", "X,X"),
            4,
            "error 4: demand row-width file demand row 3 column - field -\n",
        ),
        (
            ("d", "X,X,1", "Q,X,1"),
            4,
            "error 4: demand unknown-zone file demand row 3 column origin field Q\n",
        ),
        (
            ("z", "Y,B", "Y,C"),
            4,
            "error 4: demand unknown-stop file zones row 3 column stop_id field C\n",
        ),
        (
            ("d", "origin,destination,trips\nX,Y,0.000010\nX,X,1\n", ""),
            4,
            "error 4: demand no-header file demand row 0 column - field -\n",
        ),
        (("d", "X,X,1\n", "Y,X,1\n"), 6, "error 6: unreachable Y X\n"),
        (
            ("d", "0.000010\nX,X,1\n", "1000000000\nX,Y,0.000001\n"),
            7,
            "error 7: range units 1000000000000001\n",
        ),
    ];
    for (change, code, fault) in cases {
        expect_changed(&rt, ASSIGN, change, Ending::refused(code, fault))?;
    }
    Ok(())
}

#[test]
fn tells_a_fault_of_the_scenario(rt: HostRuntime) -> Result<(), Fail> {
    // An edit; the status and the fault text.
    let cases = [
        (
            "value\nscale,R9,50\n",
            5,
            "error 5: scenario unknown-id file scenario row 2 column target field R9\n",
        ),
        (
            "value\nwait,,201\n",
            5,
            "error 5: scenario bad-value file scenario row 2 column value field 201\n",
        ),
        ("value\nclose,B,\n", 6, "error 6: unreachable X Y\n"),
    ];
    for (rows, code, fault) in cases {
        let change = ("s", "value\n", rows);
        expect_changed(&rt, IN_SCENARIO, change, Ending::refused(code, fault))?;
    }
    Ok(())
}

#[test]
fn tells_which_file_is_missing(rt: HostRuntime) -> Result<(), Fail> {
    let cases = [
        (
            "f/stops.txt",
            3,
            "error 3: feed missing-file file stops.txt row 0 column - field -\n",
        ),
        (
            "f/routes.txt",
            3,
            "error 3: feed missing-file file routes.txt row 0 column - field -\n",
        ),
        (
            "f/calendar.txt",
            3,
            "error 3: feed missing-file file calendar.txt row 0 column - field -\n",
        ),
        (
            "f/trips.txt",
            3,
            "error 3: feed missing-file file trips.txt row 0 column - field -\n",
        ),
        (
            "f/stop_times.txt",
            3,
            "error 3: feed missing-file file stop_times.txt row 0 column - field -\n",
        ),
        // The trips leave before the window.
        ("f/frequencies.txt", 6, "error 6: unreachable X Y\n"),
        ("z", 2, "error 2: usage no file z\n"),
        ("d", 2, "error 2: usage no file d\n"),
        ("s", 2, "error 2: usage no file s\n"),
    ];
    for (path, code, fault) in cases {
        let files = without(rt.alloc(), &CITY, path)?;
        expect_city(
            &rt,
            files.as_slice(),
            IN_SCENARIO,
            Ending::refused(code, fault),
        )?;
    }
    Ok(())
}

#[test]
fn tells_each_failure_of_the_folder(rt: HostRuntime) -> Result<(), Fail> {
    // Eight files are there, each with a call that begins it, one that reads its bytes and one that
    // reads its end. Two of the feed are not there, so 26 calls are made. Call 15 is the second
    // read of stop_times.txt.
    let words: Vec<&str> = ASSIGN.split_whitespace().collect(rt.alloc())?;
    for call in 0..26u64 {
        let trial = Trial {
            failing: Some(call),
            ..Trial::new(&CITY, words.as_slice())
        };
        expect(&rt, trial, Ending::refused(8, "error 8: read fault\n"))?;
    }
    let trial = Trial {
        failing: Some(26),
        ..Trial::new(&CITY, words.as_slice())
    };
    expect(&rt, trial, Ending::printed(SUMMARY))?;
    Ok(())
}

#[test]
fn tells_how_much_was_written(rt: HostRuntime) -> Result<(), Fail> {
    let words: Vec<&str> = ASSIGN.split_whitespace().collect(rt.alloc())?;
    // The room of the output, what it holds, and the fault text.
    let cases = [
        (0, "", "error 9: write fault 0\n"),
        (5, "nodes", "error 9: write fault 5\n"),
        (20, "nodes 12\narcs 14\nzon", "error 9: write fault 20\n"),
    ];
    for (room, out, err) in cases {
        let trial = Trial {
            room,
            ..Trial::new(&CITY, words.as_slice())
        };
        expect(&rt, trial, Ending { code: 9, out, err })?;
    }
    Ok(())
}

#[test]
fn a_fault_text_that_fails_changes_nothing(rt: HostRuntime) -> Result<(), Fail> {
    let words: Vec<&str> = ASSIGN.split_whitespace().collect(rt.alloc())?;
    let trial = Trial {
        room: 5,
        room_for_faults: 5,
        ..Trial::new(&CITY, words.as_slice())
    };
    let ending = Ending {
        code: 9,
        out: "nodes",
        err: "error",
    };
    expect(&rt, trial, ending)?;
    Ok(())
}
