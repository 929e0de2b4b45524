//! Versions of the formats.

/// A version of the formats. From version 2 on a constraint may be a denial.
#[derive(Clone, Copy, PartialEq, Eq)]
pub enum Version {
    One,
    Two,
}
