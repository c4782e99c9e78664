//! Each fault of a row.

use super::*;

// The header of a file.
fn header(place: u32) -> &'static str {
    match place {
        0 => "stop_id,location_type,parent_station\n",
        1 => "route_id,route_type\n",
        2 => {
            "service_id,monday,tuesday,wednesday,thursday,friday,saturday,sunday,start_date,end_date\n"
        }
        3 => "service_id,date,exception_type\n",
        4 => "route_id,service_id,trip_id\n",
        5 => {
            "trip_id,arrival_time,departure_time,stop_id,stop_sequence,pickup_type,drop_off_type\n"
        }
        6 => "trip_id,start_time,end_time,headway_secs,exact_times\n",
        _ => "from_stop_id,to_stop_id,transfer_type,min_transfer_time\n",
    }
}

// Whether the small city with these rows in a file has a fault of a kind at a row, a column and a
// field.
fn is_fault(
    alloc: Global,
    place: u32,
    rows: &str,
    kind: Kind,
    want: (u64, &str, &str),
) -> Result<bool, Fail> {
    let mut text = String::from_str(alloc, header(place))?;
    text.push_str(rows)?;
    has_fault(alloc, place, text.as_str(), kind, want)
}

// Rows of a file, the fault that they have, and where: the row, the column and the field.
type Case = (u32, &'static str, Kind, u64, &'static str, &'static str);

const PLACES: [Case; 5] = [
    (0, ",x,\n", Kind::BadField, 2, "stop_id", ""),
    (0, "A,,\nB,,\nA,x,\n", Kind::DoubleId, 4, "stop_id", "A"),
    (0, "A,,\nB,x,\n", Kind::BadField, 3, "location_type", "x"),
    (1, "R1,3\n,3\n", Kind::BadField, 3, "route_id", ""),
    (1, "R1,3\nR2,3\nR1,3\n", Kind::DoubleId, 4, "route_id", "R1"),
];

#[test]
fn faults_of_stops_and_routes(rt: HostRuntime) -> Result<(), Fail> {
    for (place, rows, kind, row, column, field) in PLACES {
        let want = (row, column, field);
        assert!(rt; is_fault(rt.alloc(), place, rows, kind, want)?, "{rows}");
    }
    Ok(())
}

const SERVICES: [Case; 8] = [
    (
        2,
        ",1,1,1,1,1,0,0,20250101,20251231\n",
        Kind::BadField,
        2,
        "service_id",
        "",
    ),
    (
        2,
        "WK,1,1,1,1,1,0,0,20250101,20251231\nWK,1,1,1,1,1,0,0,20250101,20251231\n",
        Kind::DoubleId,
        3,
        "service_id",
        "WK",
    ),
    (
        2,
        "WK,1,1,1,1,1,0,01,20250101,20251231\n",
        Kind::BadField,
        2,
        "sunday",
        "01",
    ),
    (
        2,
        "WK,1,1,1,1,1,0,0,20250229,x\n",
        Kind::BadField,
        2,
        "start_date",
        "20250229",
    ),
    (
        2,
        "WK,1,1,1,1,1,0,0,20250101,2025123\n",
        Kind::BadField,
        2,
        "end_date",
        "2025123",
    ),
    (3, ",x,1\n", Kind::BadField, 2, "service_id", ""),
    (
        3,
        "WK,20250101,1\nWK,20250001,3\n",
        Kind::BadField,
        3,
        "date",
        "20250001",
    ),
    (
        3,
        "WK,20250101,3\n",
        Kind::BadField,
        2,
        "exception_type",
        "3",
    ),
];

#[test]
fn faults_of_services(rt: HostRuntime) -> Result<(), Fail> {
    for (place, rows, kind, row, column, field) in SERVICES {
        let want = (row, column, field);
        assert!(rt; is_fault(rt.alloc(), place, rows, kind, want)?, "{rows}");
    }
    Ok(())
}

const TRIPS: [Case; 4] = [
    (4, "R3,,t1\n", Kind::UnknownId, 2, "route_id", "R3"),
    (4, "R1,,t1\n", Kind::BadField, 2, "service_id", ""),
    (4, "R1,WK,t1\nR1,WK,\n", Kind::BadField, 3, "trip_id", ""),
    (
        4,
        "R1,WK,t1\nR2,WK,t1\n",
        Kind::DoubleId,
        3,
        "trip_id",
        "t1",
    ),
];

#[test]
fn faults_of_trips(rt: HostRuntime) -> Result<(), Fail> {
    for (place, rows, kind, row, column, field) in TRIPS {
        let want = (row, column, field);
        assert!(rt; is_fault(rt.alloc(), place, rows, kind, want)?, "{rows}");
    }
    Ok(())
}

// Each with one field that is not good; those behind it are not good either.
const CALL_ROWS: [Case; 7] = [
    (5, "t3,x,x,C,x,x,x\n", Kind::UnknownId, 2, "trip_id", "t3"),
    (
        5,
        "t1,6:0:00,x,C,x,x,x\n",
        Kind::BadField,
        2,
        "arrival_time",
        "6:0:00",
    ),
    (
        5,
        "t1,,24:00,C,x,x,x\n",
        Kind::BadField,
        2,
        "departure_time",
        "24:00",
    ),
    (5, "t1,,,C,x,x,x\n", Kind::UnknownId, 2, "stop_id", "C"),
    (
        5,
        "t1,,,,-1,x,x\n",
        Kind::BadField,
        2,
        "stop_sequence",
        "-1",
    ),
    (5, "t1,,,A,1,x,x\n", Kind::BadField, 2, "pickup_type", "x"),
    (5, "t1,,,A,1,,x\n", Kind::BadField, 2, "drop_off_type", "x"),
];

#[test]
fn faults_of_rows_of_calls(rt: HostRuntime) -> Result<(), Fail> {
    for (place, rows, kind, row, column, field) in CALL_ROWS {
        let want = (row, column, field);
        assert!(rt; is_fault(rt.alloc(), place, rows, kind, want)?, "{rows}");
    }
    Ok(())
}

// The calls of t1 in file order.
const TRIP_CALLS: [Case; 5] = [
    // The later one in the file, though its sequence is written otherwise.
    (
        5,
        "t1,06:10:00,,B,2,,\nt1,06:00:00,,A,1,,\nt1,06:20:00,,B,02,,\n",
        Kind::DoubleId,
        4,
        "stop_sequence",
        "02",
    ),
    // Of t2 no call is judged before those of t1.
    (
        5,
        "t2,06:00:00,,A,1,,\nt2,06:00:00,,A,1,,\nt1,06:10:00,06:09:59,A,1,,\nt1,06:20:00,,B,2,,\n",
        Kind::TimesFall,
        4,
        "departure_time",
        "06:09:59",
    ),
    (
        5,
        "t1,06:10:00,,A,1,,\nt1,06:09:59,06:09:58,B,2,,\n",
        Kind::TimesFall,
        3,
        "arrival_time",
        "06:09:59",
    ),
    // The departure is all that the row says of its arrival.
    (
        5,
        "t1,06:10:00,,A,1,,\nt1,,06:09:59,B,2,,\n",
        Kind::TimesFall,
        3,
        "departure_time",
        "06:09:59",
    ),
    // The call before it that has a time is the first one.
    (
        5,
        "t1,06:09:59,06:10:00,A,1,,\nt1,,,B,2,,\nt1,06:09:59,,A,3,,\n",
        Kind::TimesFall,
        4,
        "arrival_time",
        "06:09:59",
    ),
];

#[test]
fn faults_of_the_calls_of_a_trip(rt: HostRuntime) -> Result<(), Fail> {
    for (place, rows, kind, row, column, field) in TRIP_CALLS {
        let want = (row, column, field);
        assert!(rt; is_fault(rt.alloc(), place, rows, kind, want)?, "{rows}");
    }
    Ok(())
}

const BAND_ROWS: [Case; 8] = [
    (6, "t3,x,x,x,x\n", Kind::UnknownId, 2, "trip_id", "t3"),
    (6, "t1,x,x,x,x\n", Kind::BadField, 2, "start_time", "x"),
    (6, "t1,6:00:00,,x,x\n", Kind::BadField, 2, "end_time", ""),
    (
        6,
        "t1,6:00:00,5:00:00,,x\n",
        Kind::BadField,
        2,
        "headway_secs",
        "",
    ),
    (
        6,
        "t1,6:00:00,5:00:00,0,2\n",
        Kind::BadField,
        2,
        "exact_times",
        "2",
    ),
    (
        6,
        "t1,6:00:00,5:00:00,0,1\n",
        Kind::BadHeadway,
        2,
        "headway_secs",
        "0",
    ),
    // 1,000,000 is the greatest headway.
    (
        6,
        "t1,6:00:00,6:00:00,1000000,\nt1,6:00:00,5:00:00,1000001,\n",
        Kind::BadHeadway,
        3,
        "headway_secs",
        "1000001",
    ),
    (
        6,
        "t1,6:00:00,5:59:59,60,\n",
        Kind::BadHeadway,
        2,
        "end_time",
        "5:59:59",
    ),
];

#[test]
fn faults_of_bands(rt: HostRuntime) -> Result<(), Fail> {
    for (place, rows, kind, row, column, field) in BAND_ROWS {
        let want = (row, column, field);
        assert!(rt; is_fault(rt.alloc(), place, rows, kind, want)?, "{rows}");
    }
    Ok(())
}

const TRANSFER_ROWS: [Case; 4] = [
    (7, ",,x,x\n", Kind::BadField, 2, "transfer_type", "x"),
    (7, ",,0,-1\n", Kind::BadField, 2, "min_transfer_time", "-1"),
    (7, "C,D,,\n", Kind::UnknownId, 2, "from_stop_id", "C"),
    (7, "A,D,,\n", Kind::UnknownId, 2, "to_stop_id", "D"),
];

#[test]
fn faults_of_transfers(rt: HostRuntime) -> Result<(), Fail> {
    for (place, rows, kind, row, column, field) in TRANSFER_ROWS {
        let want = (row, column, field);
        assert!(rt; is_fault(rt.alloc(), place, rows, kind, want)?, "{rows}");
    }
    Ok(())
}
