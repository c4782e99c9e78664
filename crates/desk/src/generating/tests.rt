//! A small city in full, and a larger one by the sums of its files.
//!
//! The expected texts, lengths and sums are those that a Python program of forty lines wrote from
//! the rules of docs/FORMATS.md alone.

use super::*;
use std::test::Fail;

// The seed 6 with 8 stops, 3 lines and 3 zones.
const STOPS: &str = "\
stop_id
s0
s1
s2
s3
s4
s5
s6
s7
";

const ROUTES: &str = "\
route_id
r0
r1
r2
";

const CALENDAR_DATES: &str = "\
service_id,date,exception_type
all,20250602,1
";

const TRIPS: &str = "\
route_id,service_id,trip_id
r0,all,t0
r1,all,t1
r2,all,t2
";

const STOP_TIMES: &str = "\
trip_id,arrival_time,departure_time,stop_id,stop_sequence
t0,06:00:00,06:00:00,s0,1
t0,06:02:11,06:02:11,s1,2
t0,06:04:22,06:04:22,s2,3
t0,06:06:33,06:06:33,s3,4
t0,06:08:44,06:08:44,s4,5
t0,06:10:55,06:10:55,s5,6
t0,06:13:06,06:13:06,s6,7
t0,06:15:17,06:15:17,s7,8
t1,06:00:00,06:00:00,s7,1
t1,06:02:33,06:02:33,s6,2
t1,06:05:06,06:05:06,s5,3
t1,06:07:39,06:07:39,s4,4
t1,06:10:12,06:10:12,s3,5
t1,06:12:45,06:12:45,s2,6
t1,06:15:18,06:15:18,s1,7
t1,06:17:51,06:17:51,s0,8
t2,06:00:00,06:00:00,s4,1
t2,06:01:06,06:01:06,s3,2
t2,06:02:12,06:02:12,s2,3
t2,06:03:18,06:03:18,s1,4
t2,06:04:24,06:04:24,s0,5
t2,06:05:30,06:05:30,s7,6
t2,06:06:36,06:06:36,s6,7
t2,06:07:42,06:07:42,s5,8
t2,06:08:48,06:08:48,s4,9
t2,06:09:54,06:09:54,s3,10
t2,06:11:00,06:11:00,s2,11
t2,06:12:06,06:12:06,s1,12
";

const FREQUENCIES: &str = "\
trip_id,start_time,end_time,headway_secs
t0,06:00:00,22:00:00,902
t1,06:00:00,22:00:00,339
t2,06:00:00,22:00:00,636
";

const ZONES: &str = "\
zone_id,stop_id,walk_secs
z0,s2,279
z0,s7,334
z1,s2,166
z1,s7,560
z2,s5,261
z2,s3,61
";

const DEMAND: &str = "\
origin,destination,trips
z1,z0,25
z2,z1,27
";

// The length of a file, and the sum that each byte is added to behind 31 times the sum before.
fn sum_of(bytes: &[u8]) -> (usize, u32) {
    let mut sum = 0u32;
    for byte in bytes {
        sum = sum.wrapping_mul(31).wrapping_add(u32::from(*byte));
    }
    (bytes.len(), sum)
}

#[test]
fn a_small_city_is_the_one_worked_out(rt: HostRuntime) -> Result<(), Fail> {
    let words = GenWords {
        seed: 6,
        stops: 8,
        lines: 3,
        zones: 3,
    };
    let made = generate(rt.alloc(), &words)?;
    assert_eq!(rt; made.stops.as_slice(), STOPS.as_bytes());
    assert_eq!(rt; made.routes.as_slice(), ROUTES.as_bytes());
    assert_eq!(rt; made.calendar_dates.as_slice(), CALENDAR_DATES.as_bytes());
    assert_eq!(rt; made.trips.as_slice(), TRIPS.as_bytes());
    assert_eq!(rt; made.stop_times.as_slice(), STOP_TIMES.as_bytes());
    assert_eq!(rt; made.frequencies.as_slice(), FREQUENCIES.as_bytes());
    assert_eq!(rt; made.zones.as_slice(), ZONES.as_bytes());
    assert_eq!(rt; made.demand.as_slice(), DEMAND.as_bytes());
    Ok(())
}

// Its longest line ends behind midnight, and most of its pairs have no trips.
#[test]
fn a_larger_city_has_the_sums_worked_out(rt: HostRuntime) -> Result<(), Fail> {
    let words = GenWords {
        seed: 999_999_999_999_999_999,
        stops: 700,
        lines: 30,
        zones: 40,
    };
    let made = generate(rt.alloc(), &words)?;
    assert_eq!(rt; sum_of(made.stops.as_slice()), (3_398, 117_065_604));
    assert_eq!(rt; sum_of(made.routes.as_slice()), (119, 3_706_449_560));
    assert_eq!(rt; sum_of(made.trips.as_slice()), (368, 2_902_374_935));
    assert_eq!(rt; sum_of(made.stop_times.as_slice()), (51_292, 721_993_695));
    assert_eq!(rt; sum_of(made.frequencies.as_slice()), (820, 2_141_563_262));
    assert_eq!(rt; sum_of(made.zones.as_slice()), (1_022, 3_643_271_409));
    assert_eq!(rt; sum_of(made.demand.as_slice()), (3_172, 4_063_053_695));
    Ok(())
}
