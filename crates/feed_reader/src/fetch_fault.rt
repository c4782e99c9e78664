//! Why the files of a feed are not fetched.

ghost use Rattle.std.specs.Prelude.{◌≡◌};
ghost use Rattle.feed_reader.specs.declared.fetch_fault.FetchFault.TheVariants as fault;

use std::alloc::AllocError;

/// The bytes of all files of one feed.
pub const FILES_LIMIT: u64 = 536_870_912;

/// A limit of the files of a feed.
#[derive(Clone, Copy, Debug, Drop, PartialEq, Eq)]
pub enum FetchLimit {
    /// The bytes of one file, `definitions::FILE_LIMIT`.
    File,
    /// The bytes of all files of one feed, `FILES_LIMIT`.
    Files,
}

/// Why the files of a feed were not fetched.
#[derive(Clone, Copy, Debug, Drop, PartialEq, Eq)]
pub enum FetchFault {
    /// A call of the folder failed, and the folder counted it.
    ReadFault,
    /// A limit is passed. The count is one more than the limit of a file, and for all files the
    /// bytes of those that were read, the last of them whole.
    Range { limit: FetchLimit, count: u128 },
    /// There was no memory for the files or their paths.
    NoMemory,
}

impl From<AllocError> for FetchFault {
    ghost from_gives = { λ _ e. e ≡ fault.NoMemory };

    fn from(_error: AllocError) -> FetchFault {
        FetchFault::NoMemory
    }
}
