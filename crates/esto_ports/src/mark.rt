//! The byte-order mark.

/// The bytes of a byte-order mark, with which a file may begin.
pub const MARK: [u8; 3] = [0xef, 0xbb, 0xbf];
