//! The small city as an agency exports it, and with a fault.

use super::city::expect_city;
use super::*;

// Each file begins with a byte order mark and has lines that end in CR LF. There are columns that
// are not read, and a quoted name with a comma. The calls stand in reverse, with hours of one digit,
// and the sequences of a trip need not be 1 and 2.
const EXPORT: [(u32, &str); 6] = [
    (
        0,
        "\u{feff}stop_code,stop_id,stop_name,stop_lat,location_type\r\n\
        11,A,\"Ash Street, north\",52.51,0\r\n12,B,Bay Road,52.52,\r\n",
    ),
    (
        1,
        "\u{feff}agency_id,route_id,route_type\r\nX,R1,3\r\nX,R2,3\r\n",
    ),
    (2, EXPORTED_WEEK),
    (
        4,
        "\u{feff}route_id,service_id,trip_id,trip_headsign\r\n\
        R1,WK,t1,\"Bay Road, pier\"\r\nR2,WK,t2,Bay Road\r\n",
    ),
    (5, EXPORTED_CALLS),
    (
        6,
        "\u{feff}trip_id,start_time,end_time,headway_secs,exact_times\r\n\
        t1,6:00:00,22:00:00,600,0\r\nt2,6:00:00,22:00:00,900,\r\n",
    ),
];

const EXPORTED_WEEK: &str = "\u{feff}service_id,service_name,monday,tuesday,wednesday,thursday,\
friday,saturday,sunday,start_date,end_date\r\nWK,Weekdays,1,1,1,1,1,0,0,20250101,20251231\r\n";

const EXPORTED_CALLS: &str = "\u{feff}trip_id,arrival_time,departure_time,stop_id,stop_sequence,\
pickup_type,drop_off_type,timepoint\r\n\
t2,6:14:00,6:14:00,B,25,0,0,1\r\nt2,6:00:00,6:00:00,A,10,0,0,1\r\n\
t1,6:10:00,6:10:00,B,25,0,0,1\r\nt1,6:00:00,6:00:00,A,10,0,0,1\r\n";

#[test]
fn an_exported_folder_gives_the_same_lists(rt: HostRuntime) -> Result<(), Fail> {
    let files = files_of(rt.alloc(), &EXPORT)?;
    let feed = feed_of(rt.alloc(), &files)?;
    expect_city(&rt, &feed);
    Ok(())
}

// The times at B are before those at A.
const FALLING: &str = "\
trip_id,arrival_time,departure_time,stop_id,stop_sequence
t1,06:00:00,06:00:00,A,1
t1,05:59:00,05:59:00,B,2
t2,06:00:00,06:00:00,A,1
t2,06:14:00,06:14:00,B,2
";

const UNNUMBERED: &str = "\
trip_id,arrival_time,departure_time,stop_id
t1,06:00:00,06:00:00,A
t1,06:10:00,06:10:00,B
";

const NO_HEADWAY: &str = "\
trip_id,start_time,end_time,headway_secs
t1,06:00:00,22:00:00,0
t2,06:00:00,22:00:00,900
";

// A file of the small city with a fault, and where: the row, the column and the field.
const FAULTS: [(u32, &str, Kind, u64, &str, &str); 3] = [
    (5, UNNUMBERED, Kind::MissingColumn, 1, "stop_sequence", ""),
    (5, FALLING, Kind::TimesFall, 3, "arrival_time", "05:59:00"),
    (6, NO_HEADWAY, Kind::BadHeadway, 2, "headway_secs", "0"),
];

#[test]
fn a_fault_of_a_folder_has_its_place(rt: HostRuntime) -> Result<(), Fail> {
    for (place, text, kind, row, column, field) in FAULTS {
        let want = (row, column, field);
        let is = has_fault(rt.alloc(), place, text, kind, want)?;
        assert!(rt; is, "{column}");
    }
    Ok(())
}
