//! The limits of files.

/// The greatest length of a catalogue's file, in bytes.
pub const CATALOGUE_LIMIT: u64 = 1_048_576;

/// The greatest length of a query's file, in bytes.
pub const QUERY_LIMIT: u64 = 65_536;

/// The greatest length of the file of a dataset, of a fragment or of a certificate, in bytes.
pub const DATA_LIMIT: u64 = 8_388_608;
