//! `gen`: the summary of the assignment of a generated city.

ghost use Rattle.std.specs.Prelude.{◌≡◌, None};
ghost use Rattle.assign.specs.declared.print.Print.TheVariants as print;
ghost use Rattle.assign.specs.Printed.{PrintsTotals};
ghost use Rattle.desk.specs.Assigned.{job_with};
ghost use Rattle.desk.specs.Ends.{EndsJob};
ghost use Rattle.desk.specs.Generable.{IsGenerable};
ghost use Rattle.desk.specs.Generated.{AreShort, files_of};
ghost use Rattle.desk.specs.GeneratedJobs.{generated_job, generated_period, inputs_of_city};

use crate::assigning::{print_job, usage_of};
use crate::gen_words::GenWords;
use crate::generating::{Generated, generate};
use crate::inputs::Inputs;
use crate::status::Cause;
use assign::Print;
use desk_io::Sink;
use feed_reader::Files;
use gtfs_rows::Blob;
use service_period::Period;
use std::alloc::Global;

/// Prints the summary of the job of a generated city, and tells how that ended.
pub fn assign_generated<O: Sink>(alloc: Global, words: &GenWords, out: &mut O) -> Cause
    requires range { IsGenerable words.now }
    ensures ends { EndsJob (generated_job words.now)
        (record { old_count = O.count out.old; new_count = O.count out.new; old = O.written out.old; new = O.written out.new }) result }
    ensures totals { result ≡ Cause.Done → PrintsTotals (generated_job words.now) (O.written out.old) (O.written out.new) }
{
    match generate(alloc, words) {
        Ok(made) => print_city(alloc, &inputs_of(made), out),
        Err(_) => Cause::NoMemory,
    }
}

// Prints the summary of the job of inputs in the period of generated cities.
fn print_city<O: Sink>(alloc: Global, inputs: &Inputs, out: &mut O) -> Cause
    ensures ends { EndsJob (job_with inputs.now generated_period print.Summary None)
        (record { old_count = O.count out.old; new_count = O.count out.new; old = O.written out.old; new = O.written out.new }) result }
    ensures totals { result ≡ Cause.Done
        → PrintsTotals (job_with inputs.now generated_period print.Summary None) (O.written out.old) (O.written out.new) }
{
    match Period::new("20250602", "07:00:00", "09:00:00") {
        Ok(period) => print_job(alloc, inputs, period, Print::Summary, &None, out),
        Err(bad) => Cause::Usage(usage_of(bad)),
    }
}

// The files of a city as the inputs of a job.
fn inputs_of(made: Generated) -> Inputs
    requires short { AreShort (files_of made) }
    ensures value { result ≡ inputs_of_city (files_of made) }
{
    let mut files = Files::none();
    files.set(0, Blob::new(made.stops));
    files.set(1, Blob::new(made.routes));
    files.set(3, Blob::new(made.calendar_dates));
    files.set(4, Blob::new(made.trips));
    files.set(5, Blob::new(made.stop_times));
    files.set(6, Blob::new(made.frequencies));
    Inputs {
        files,
        zones: Blob::new(made.zones),
        demand: Blob::new(made.demand),
        walks: None,
        scenario: None,
    }
}
