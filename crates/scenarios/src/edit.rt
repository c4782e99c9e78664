//! The edits of a scenario.

ghost use Rattle.std.specs.Prelude.{◌≡◌};
ghost use Rattle.scenarios.specs.Edits.{between, edit_named, range_of, target_of};

/// What a row of a scenario changes.
#[derive(Clone, Copy, Debug, Drop, PartialEq, Eq)]
pub(crate) enum Edit {
    Scale,
    Fare,
    Drop,
    Close,
    Transfer,
    Wait,
    Pace,
}

/// What the target of an edit names.
#[derive(Clone, Copy, Debug, Drop, PartialEq, Eq)]
pub(crate) enum Target {
    Route,
    Stop,
    Nothing,
}

/// The numbers that a value may be.
#[derive(Clone, Copy, Debug, Drop, PartialEq, Eq)]
pub(crate) struct Range {
    pub least: u32,
    pub most: u32,
}

/// The edit of a name.
pub(crate) fn edit_named(name: &[u8]) -> Option<Edit>
    ensures value { result ≡ edit_named name.now }
{
    match name {
        b"scale" => Some(Edit::Scale),
        b"fare" => Some(Edit::Fare),
        b"drop" => Some(Edit::Drop),
        b"close" => Some(Edit::Close),
        b"transfer" => Some(Edit::Transfer),
        b"wait" => Some(Edit::Wait),
        b"pace" => Some(Edit::Pace),
        _ => None,
    }
}

impl Edit {
    /// What the target names.
    pub fn target(self) -> Target
        ensures value { result ≡ target_of self }
    {
        match self {
            Edit::Scale => Target::Route,
            Edit::Fare => Target::Route,
            Edit::Drop => Target::Route,
            Edit::Close => Target::Stop,
            Edit::Transfer => Target::Nothing,
            Edit::Wait => Target::Nothing,
            Edit::Pace => Target::Nothing,
        }
    }

    /// The numbers that the value may be, None where it has to be empty.
    pub fn range(self) -> Option<Range>
        ensures value { result ≡ range_of self }
    {
        match self {
            Edit::Scale => between(0, 1000),
            Edit::Fare => between(0, 500_000),
            Edit::Drop => None,
            Edit::Close => None,
            Edit::Transfer => between(0, 500_000),
            Edit::Wait => between(1, 200),
            Edit::Pace => between(1, 1000),
        }
    }
}

// From one number to another.
fn between(least: u32, most: u32) -> Option<Range>
    ensures value { result ≡ between least most }
{
    Some(Range { least, most })
}
