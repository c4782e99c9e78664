//! A city of two stops with two lines between them, and one where passengers change lines.

use super::Texts;
use crate::print::Print;

/// Two lines from A to B, of 600 and 840 seconds. In an hour they weigh 6000 and 4000.
pub const CITY: [(u32, &str); 6] = [
    (0, "stop_id,stop_name\nA,Ash Street\nB,Bay Road\n"),
    (1, "route_id\nR1\nR2\n"),
    (2, WEEK),
    (4, "route_id,service_id,trip_id\nR1,WK,t1\nR2,WK,t2\n"),
    (5, CALLS),
    (6, BANDS),
];

/// Passengers reach A after 60 seconds, and leave B with 30 to go. The second row stays in its zone.
pub const TEXTS: Texts<'static> = Texts {
    zones: ZONES,
    walks: None,
    demand: "origin,destination,trips\nX,Y,0.000010\nX,X,1\n",
    scenario: None,
    to: "08:00:00",
    print: Print::Summary,
    to_zone: None,
};

/// One line from A to P1 and one from P2 to C, each of 600 seconds. P1 and P2 are in one station,
/// so that the walk between them takes 120 seconds.
pub const CHANGE: [(u32, &str); 6] = [
    (
        0,
        "stop_id,location_type,parent_station\nA,,\nS,1,\nP1,,S\nP2,,S\nC,,\n",
    ),
    (1, "route_id\nR1\nR2\n"),
    (2, WEEK),
    (4, "route_id,service_id,trip_id\nR1,WK,t1\nR2,WK,t2\n"),
    (5, CHANGE_CALLS),
    (6, CHANGE_BANDS),
];

/// The transfers.txt that bars the walk between the platforms.
pub const BARRED: &str = "from_stop_id,to_stop_id,transfer_type\nP1,P2,3\n";

/// A trip from the zone at A to the one at C.
pub const CHANGE_TEXTS: Texts<'static> = Texts {
    zones: "zone_id,stop_id,walk_secs\nX,A,60\nY,C,30\n",
    walks: None,
    demand: "origin,destination,trips\nX,Y,1\n",
    scenario: None,
    to: "08:00:00",
    print: Print::Summary,
    to_zone: None,
};

/// A service that runs on Mondays to Fridays of 2025.
pub const WEEK: &str = "\
service_id,monday,tuesday,wednesday,thursday,friday,saturday,sunday,start_date,end_date
WK,1,1,1,1,1,0,0,20250101,20251231
";

const CALLS: &str = "\
trip_id,arrival_time,departure_time,stop_id,stop_sequence
t1,06:00:00,06:00:00,A,1
t1,06:10:00,06:10:00,B,2
t2,06:00:00,06:00:00,A,1
t2,06:14:00,06:14:00,B,2
";

const BANDS: &str = "\
trip_id,start_time,end_time,headway_secs
t1,06:00:00,22:00:00,600
t2,06:00:00,22:00:00,900
";

const ZONES: &str = "zone_id,stop_id,walk_secs\nX,A,60\nY,B,30\n";

const CHANGE_CALLS: &str = "\
trip_id,arrival_time,departure_time,stop_id,stop_sequence
t1,06:00:00,06:00:00,A,1
t1,06:10:00,06:10:00,P1,2
t2,06:00:00,06:00:00,P2,1
t2,06:10:00,06:10:00,C,2
";

const CHANGE_BANDS: &str = "\
trip_id,start_time,end_time,headway_secs
t1,06:00:00,22:00:00,600
t2,06:00:00,22:00:00,600
";
