//! Why texts are no period.

/// Why the texts of a date and of two times are no period.
#[derive(Clone, Copy, Debug, Drop, PartialEq, Eq)]
pub enum BadPeriod {
    /// The first text is no date.
    Date,
    /// The other two are no times, or no window.
    Window,
}
