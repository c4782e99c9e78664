//! What a job is made of.

use crate::print::Print;
use feed_reader::Files;
use service_period::Period;

/// The files of a feed, the tables of a demand as the bytes of their files, and a period; and what
/// is printed of it.
///
/// A job without walks has the walks of its feed alone, and one without a scenario changes nothing.
/// `to_zone` is the id of the zone to which the skims or the certificate lead: without it the skims
/// lead to all zones. The other prints do not read it, but it is judged with each.
#[derive(Drop)]
pub struct Job<'a> {
    pub files: &'a Files,
    pub zones: &'a [u8],
    pub walks: Option<&'a [u8]>,
    pub demand: &'a [u8],
    pub scenario: Option<&'a [u8]>,
    pub period: Period,
    pub print: Print,
    pub to_zone: Option<&'a str>,
}
