//! Laws of jobs, as theorems about the definitions alone.

ghost use Rattle.assign.specs.Jobs.{JobData};
ghost use Rattle.assign.specs.JobLaws.{NeverBoth, OneFault, OneFeed, OnePrint, OneUnreachable, PrintIsBegun, PrintIsFaultless, WholeBegins};

use skims::one_parts;

/// A job has one outcome at most: a print or a fault, never both, and of each one at most.
///
/// The files of a feed make one feed, so what is stated of a feed of theirs is stated of the one
/// that there is. What begins the print of a job are its first bytes. A job that prints, or begins
/// to, is faultless; a faultless job has no first fault, and all its pairs reach; and a job with a
/// first fault is refused before its reach is judged.
pub fn one_outcome()
    ensures one_feed { OneFeed }
    ensures one_print { OnePrint }
    ensures whole_begins { WholeBegins }
    ensures print_is_begun { PrintIsBegun }
    ensures print_is_faultless { PrintIsFaultless }
    ensures one_fault { OneFault }
    ensures one_unreachable { OneUnreachable }
    ensures never_both { (job : JobData) → NeverBoth job }
{
    // The parts of labels have one solution each.
    one_parts();
}
