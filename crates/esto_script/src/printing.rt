//! How what comes of a line is printed. What can't be printed is let go.

use esto_ports::{OutSink, Sink};

/// The bytes as they are.
pub fn put_bytes(rt: &HostRuntime, bytes: &[u8]) {
    let _ = OutSink::new(rt).put(bytes);
}

/// The text as it is.
pub fn put(rt: &HostRuntime, text: &str) {
    put_bytes(rt, text.as_bytes());
}

/// The digits of a number.
pub fn put_digits(rt: &HostRuntime, number: u64) {
    let _ = print!(rt; "{number}");
}

/// A line of a text and a number.
pub fn put_counted(rt: &HostRuntime, text: &str, number: u64) {
    put(rt, text);
    put_digits(rt, number);
    put(rt, "\n");
}
