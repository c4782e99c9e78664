//! The number of a service, which is noted where it is new.

ghost use Rattle.std.specs.Prelude.{◌≡◌, Some, OnOk, IfOk};
ghost use Rattle.feed_reader.specs.Ids.{number_of};
ghost use Rattle.feed_reader.specs.Numbered.{noted};

use crate::ids::Ids;
use gtfs_rows::NoMemory;

/// The number of a service, which is noted where it is not there yet.
pub(crate) fn note_service(services: &mut Ids, id: &str) -> Result<u32, NoMemory>
    ensures services { OnOk result (services.new ≡ noted services.old id.now) }
    ensures number { IfOk result (λ number. number_of services.new id.now ≡ Some number) }
{
    if let Some(number) = services.find(id) {
        return Ok(number);
    }
    let number = services.len();
    services.push(id)?;
    Ok(number)
}
