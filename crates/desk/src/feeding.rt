//! A text that is read and fed to a checker in pieces, and never held.

ghost use Rattle.std.specs.Prelude.{◌≡◌, ◌≤◌, [], None, OnOk, IfErr};
ghost use Rattle.definitions.specs.Causes.{Rose};
ghost use Rattle.certificate.specs.Fed.{bytes_so_far};
ghost use Rattle.desk.specs.Fed.{Feeds, IsFed, Unfed};

use crate::status::{Cause, Limit};
use certificate::{Checker, Refused};
use definitions::FILE_LIMIT;
use desk_io::{Failed, Source};

// The greatest number of bytes of one piece.
const PIECE: usize = 65_536;

/// Feeds the checker all bytes that are left of the source, where they are within the limit of a file.
///
/// The checker keeps its refusal, so a refused text is still read to its end: that a read fails and
/// that the file is too long come first.
pub fn feed_all<S: Source>(source: &mut S, checker: &mut Checker) -> Result<(), Cause>
    requires none { bytes_so_far checker.old ≡ [] }
    requires fresh { checker.old.refused ≡ None }
    ensures fed { OnOk result (IsFed (S.left source.old) checker.new) }
    ensures unfed { IfErr result (Unfed (S.left source.old) (S.count source.old) (S.count source.new)) }
    ensures count { S.count source.old ≤ S.count source.new }
{
    let mut buffer = [0u8; PIECE];
    let mut room = FILE_LIMIT;
    loop {
        // One more byte than there is room for shows that too many came.
        let most = PIECE.min(room + 1);
        let n = match source.read(&mut buffer[..most]) {
            Ok(n) => n,
            Err(Failed) => return Err(Cause::ReadFault),
        };
        if n == 0 {
            return Ok(());
        }
        if n > room {
            return Err(Cause::Range(Limit::File, FILE_LIMIT as u128 + 1));
        }
        room -= n;
        feed(checker, &buffer[..n])?;
    }
}

// Feeds one piece. A refusal for its text stays with the checker.
fn feed(checker: &mut Checker, piece: &[u8]) -> Result<(), Cause>
    ensures fed { OnOk result (Feeds checker.old piece.now checker.new) }
    ensures err { IfErr result (λ cause. cause ≡ Cause.NoMemory) }
{
    match checker.feed(piece) {
        Err(Refused::NoMemory) => Err(Cause::NoMemory),
        Err(_) | Ok(()) => Ok(()),
    }
}
