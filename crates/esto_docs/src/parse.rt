//! Bytes as JSON values.
ghost use Rattle.std.specs.Prelude.{◌≡◌, Ok, Err, MatchResult};
ghost use Rattle.esto_ports.specs.declared.file_fault.FileError.TheVariants as file;
ghost use Rattle.esto_docs.specs.Parsing.{Parses, ParsesArray};
ghost use Rattle.esto_docs.specs.Files.{is_blank};
ghost use Rattle.esto_docs.specs.declared.parse.ParseError.TheVariants as errors;

use esto_ports::{FileError, FileKind, fault};
use esto_term::OutOfMemory;
use serde_json::Value;
use std::alloc::Global;

/// Why bytes give no value.
#[derive(Clone, Copy)]
pub enum ParseError {
    /// The bytes are no JSON value.
    BadJson,
    /// Memory is wanting.
    OutOfMemory,
}

/// What was made, or want of memory as an error of parsing.
pub fn or_parse_error<T>(made: Result<T, OutOfMemory>) -> Result<T, ParseError>
    ensures { MatchResult made (λ it. result ≡ Ok it) (λ _. result ≡ Err errors.OutOfMemory) }
{
    match made {
        Ok(it) => Ok(it),
        Err(_) => Err(ParseError::OutOfMemory),
    }
}

/// What was made, or want of memory as an error of a file.
pub fn or_file_error<T>(made: Result<T, OutOfMemory>) -> Result<T, FileError>
    ensures { MatchResult made (λ it. result ≡ Ok it) (λ _. result ≡ Err file.OutOfMemory) }
{
    match made {
        Ok(it) => Ok(it),
        Err(_) => Err(FileError::OutOfMemory),
    }
}

/// The JSON value that bytes are.
pub fn parse(alloc: Global, bytes: &[u8]) -> Result<Value, ParseError>
    ensures { Parses bytes.now result }
{
    match Value::from_slice(alloc, bytes) {
        Ok(value) => Ok(value),
        Err(error) => {
            if error.is_memory() {
                Err(ParseError::OutOfMemory)
            } else {
                Err(ParseError::BadJson)
            }
        }
    }
}

/// The items of a file that is one array, or its fault: BadJson at 0 where it is no JSON value, and
/// NotArray at 0 where it is no array.
pub fn parse_array(alloc: Global, bytes: &[u8]) -> Result<Vec<Value>, FileError>
    ensures { ParsesArray bytes.now result }
{
    match parse(alloc, bytes) {
        Ok(Value::Array(items)) => Ok(items),
        Ok(_) => Err(fault(FileKind::NotArray, 0)),
        Err(ParseError::BadJson) => Err(fault(FileKind::BadJson, 0)),
        Err(ParseError::OutOfMemory) => Err(FileError::OutOfMemory),
    }
}

/// Whether a line has no byte but spaces, tabs and carriage returns.
pub fn is_blank(line: &[u8]) -> bool
    ensures { result ≡ is_blank line.now }
{
    line.iter()
        .all(|b| *b == b' ' || *b == b'\t' || *b == b'\r')
}
