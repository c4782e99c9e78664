//! The commands of the program.

use crate::gen_words::GenWords;
use assign::Print;
use desk_io::Name;

/// A command with its values.
#[derive(Drop)]
pub enum Command {
    Assign(AssignWords),
    /// The path of a certificate.
    Check(Name),
    /// The path of a network text.
    Solve(Name),
    /// The numbers of a generated city.
    Gen(GenWords),
}

/// The values of `assign`: paths, the texts of a period, what is printed, and the id of the zone
/// to which that leads, where one is asked for.
#[derive(Drop)]
pub struct AssignWords {
    pub folder: Name,
    pub date: Name,
    pub from: Name,
    pub to: Name,
    pub zones: Name,
    pub demand: Name,
    pub walks: Option<Name>,
    pub scenario: Option<Name>,
    pub print: Print,
    pub to_zone: Option<Name>,
}
