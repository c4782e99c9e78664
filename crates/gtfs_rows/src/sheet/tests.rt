//! Sheets of texts. What the records are was worked out by RFC 4180 and docs/FORMATS.md.

use super::*;
use std::alloc::AllocError;
use std::test::Fail;

// The column `a`, which a sheet has to have, and the column `b`.
fn a_and_b(alloc: Global) -> Result<Wanted, RowFault> {
    let mut wanted = Wanted::new(alloc);
    wanted.add("a", true)?;
    wanted.add("b", false)?;
    Ok(wanted)
}

// The fields of a sheet, each with a bar behind it, and a slash behind each row.
fn shown(alloc: Global, sheet: &Sheet) -> Result<String, AllocError> {
    let mut text = String::new(alloc);
    for row in 0..sheet.rows() {
        for column in 0..sheet.width() {
            text.push_str(from_utf8(sheet.field(row, column)).unwrap_or("?"))?;
            text.push('|')?;
        }
        text.push('/')?;
    }
    Ok(text)
}

// The name of a fault, and its place.
fn told(alloc: Global, name: &str, place: &Place) -> Result<String, AllocError> {
    let file = place.file.as_str();
    let column = place.column.as_str();
    let field = place.field.as_slice().len();
    format!(in alloc; "{name}: {file} {} {column} {field}", place.row)
}

// What is read of bytes: the sheet's fields, or the fault.
fn read(alloc: Global, bytes: &[u8]) -> Result<String, AllocError> {
    let wanted = match a_and_b(alloc) {
        Ok(wanted) => wanted,
        Err(_) => return Err(AllocError),
    };
    match Sheet::read(alloc, "f", bytes, &wanted) {
        Ok(sheet) => shown(alloc, &sheet),
        Err(RowFault::NotUtf8(place)) => told(alloc, "not UTF-8", &place),
        Err(RowFault::NoHeader(place)) => told(alloc, "no header", &place),
        Err(RowFault::MissingColumn(place)) => told(alloc, "missing column", &place),
        Err(RowFault::DoubleColumn(place)) => told(alloc, "double column", &place),
        Err(RowFault::RowWidth(place)) => told(alloc, "row width", &place),
        Err(RowFault::BadField(place)) => told(alloc, "bad field", &place),
        Err(RowFault::NoMemory) => Err(AllocError),
    }
}

const TABLES: [(&str, &str); 8] = [
    ("a,b\n1,2\n3,4\n", "1|2|/3|4|/"),
    ("a,b\n1,2", "1|2|/"),
    ("a,b\n", ""),
    ("a,b\n,\n", "||/"),
    ("x,b,y,a\n7,2,8,1\n", "1|2|/"),
    // Without the column b, and with a repeated name that is not wanted.
    ("a\n1\n", "1||/"),
    ("x,a,x\n7,1,8\n", "1||/"),
    ("a,b\nä,€\n", "ä|€|/"),
];

#[test]
fn gives_the_wanted_fields_of_each_row(rt: HostRuntime) -> Result<(), Fail> {
    for (text, want) in TABLES {
        assert_eq!(rt; read(rt.alloc(), text.as_bytes())?.as_str(), want);
    }
    Ok(())
}

const RECORDS: [(&str, &str); 7] = [
    // Quotes with a comma and a line end, and doubled quotes.
    ("\"a\",b\n\"1,x\",\"2\n2\"\n", "1,x|2\n2|/"),
    ("a,b\n\"say \"\"1\"\"\",2\n", "say \"1\"|2|/"),
    // A quote that is not closed takes all that follows.
    ("a,b\n1,\"2\n3,4\n", "1|2\n3,4\n|/"),
    ("a,b\r\n1,2\r\n", "1|2|/"),
    ("a,b\r1,2\r3,4", "1|2|/3|4|/"),
    ("\n\r\na,b\n\n1,2\n\r\r\n3,4\n\n", "1|2|/3|4|/"),
    ("\u{feff}a,b\n1,2\n", "1|2|/"),
];

#[test]
fn reads_records_with_quotes_and_any_line_ends(rt: HostRuntime) -> Result<(), Fail> {
    for (text, want) in RECORDS {
        assert_eq!(rt; read(rt.alloc(), text.as_bytes())?.as_str(), want);
    }
    Ok(())
}

const BLANKS: [(&str, &str); 7] = [
    (" a\t, b\n\t 1 ,2 \t\n", "1|2|/"),
    ("a,b\n1 1,2\t2\n", "1 1|2\t2|/"),
    ("a,b\n\" 1\",\"2\t\"\n", "1|2|/"),
    ("a,b\n \t,\t\n", "||/"),
    // No other white space, and two byte order marks.
    ("a,b\n\u{a0}1,2\u{b}\n", "\u{a0}1|2\u{b}|/"),
    ("\u{feff}\u{feff}a,b\n1,2\n", "1|2|/"),
    ("\u{feff}\"a\",b\n1,2\n", "1|2|/"),
];

#[test]
fn trims_spaces_and_tabs_alone(rt: HostRuntime) -> Result<(), Fail> {
    for (text, want) in BLANKS {
        assert_eq!(rt; read(rt.alloc(), text.as_bytes())?.as_str(), want);
    }
    Ok(())
}

// Each with the file, the row, the column and the length of the field that its place names.
const FILES: [(&[u8], &str); 7] = [
    (b"a,b\n\xff,2\n", "not UTF-8: f 0  0"),
    (b"x\n\xc3\n1,2\n", "not UTF-8: f 0  0"),
    (b"", "no header: f 0  0"),
    (b"\n\r\n\r", "no header: f 0  0"),
    (b"\xef\xbb\xbf", "no header: f 0  0"),
    (b"a,b\n1,2\n3\n4\n", "row width: f 3  0"),
    (b"\na,b\n\n1,2,3\n", "row width: f 2  0"),
];

#[test]
fn names_the_first_fault_of_a_file_or_a_row(rt: HostRuntime) -> Result<(), Fail> {
    for (bytes, want) in FILES {
        assert_eq!(rt; read(rt.alloc(), bytes)?.as_str(), want);
    }
    Ok(())
}

const HEADERS: [(&str, &str); 7] = [
    ("b,x\n1,2\n", "missing column: f 1 a 0"),
    ("A,b\n", "missing column: f 1 a 0"),
    (" \na,b\n", "missing column: f 1 a 0"),
    ("\u{feff}\u{feff}\u{feff}a,b\n", "missing column: f 1 a 0"),
    // The column a is tried first.
    ("b,b\n", "missing column: f 1 a 0"),
    ("a,a\n", "double column: f 1 a 0"),
    ("b,a, b\n1\n", "double column: f 1 b 0"),
];

#[test]
fn names_the_first_column_at_fault(rt: HostRuntime) -> Result<(), Fail> {
    for (text, want) in HEADERS {
        assert_eq!(rt; read(rt.alloc(), text.as_bytes())?.as_str(), want);
    }
    Ok(())
}

#[test]
fn numbers_rows_from_the_header_on(rt: HostRuntime) -> Result<(), Fail> {
    let Ok(wanted) = a_and_b(rt.alloc()) else {
        return Err(Fail::new("no columns"));
    };
    let Ok(sheet) = Sheet::read(rt.alloc(), "stops.txt", b"a\n1\n2\n", &wanted) else {
        return Err(Fail::new("refused"));
    };
    assert_eq!(rt; sheet.width(), 2);
    assert_eq!(rt; sheet.rows(), 2);
    assert!(rt; sheet.rows() > 1);
    assert_eq!(rt; sheet.place(0, 0), 2);
    assert_eq!(rt; sheet.place(1, 1), 3);
    Ok(())
}

// A reader of fields refuses one at its place, with all that a fault tells.
#[test]
fn a_bad_field_has_its_place(rt: HostRuntime) -> Result<(), Fail> {
    let Ok(place) = Place::new(rt.alloc(), "stop_times.txt", 7, "arrival_time", b"06:60:00") else {
        return Err(Fail::new("no memory"));
    };
    let RowFault::BadField(place) = RowFault::BadField(place) else {
        return Err(Fail::new("another fault"));
    };
    assert_eq!(rt; place.file.as_str(), "stop_times.txt");
    assert_eq!(rt; place.row, 7);
    assert_eq!(rt; place.column.as_str(), "arrival_time");
    assert_eq!(rt; place.field.as_slice(), b"06:60:00".as_slice());
    Ok(())
}
