//! Texts, which are UTF-8, and bytes.
ghost use Rattle.std.specs.Prelude.{◌≡◌, [], ◌++◌, IfOk, OnOk, OnErr, IsUtf8, string_bytes};
ghost use Rattle.esto_term.specs.TextFaults.{ReadsText};

use crate::list::{List, OutOfMemory, Replicate};
use std::alloc::Global;
use std::marker::Model;
use std::str;
use thiserror::Error;

/// Why bytes give no text.
#[derive(Debug, Drop, Error)]
pub enum TextError {
    /// The bytes are not UTF-8.
    #[error("the bytes are not UTF-8")]
    NotUtf8,
    /// Memory is wanting; the bytes are UTF-8.
    #[error("out of memory")]
    OutOfMemory,
}

/// A text, which contracts see as the list of its bytes. They are UTF-8.
#[derive(Drop)]
pub struct Text {
    text: String,
}

impl Model for Text {
    ghost use Rattle.std.specs.Prelude.{List, ℕ, string_bytes};

    ghost Value = { List ℕ };

    ghost view = { λ t. string_bytes t.text };
}

/// A row of texts.
pub type TextRow = List<Text>;

/// A list of rows of texts.
pub type TextRows = List<TextRow>;

impl Text {
    /// The empty text, which takes no memory.
    pub fn new(alloc: Global) -> Text
        ensures { result ≡ [] }
    {
        Text {
            text: String::new(alloc),
        }
    }

    /// The text of this piece of Rust's own.
    pub fn from_str(alloc: Global, text: &str) -> Result<Text, OutOfMemory>
        ensures { IfOk result (λ it. it ≡ text.now) }
    {
        match String::from_str(alloc, text) {
            Ok(text) => Ok(Text { text }),
            Err(_) => Err(OutOfMemory),
        }
    }

    /// The text of these bytes. `NotUtf8` comes exactly where they are not UTF-8.
    pub fn from_bytes(alloc: Global, bytes: &[u8]) -> Result<Text, TextError>
        ensures { ReadsText bytes.now result }
    {
        match str::from_utf8(bytes) {
            Ok(text) => match String::from_str(alloc, text) {
                Ok(text) => Ok(Text { text }),
                Err(_) => Err(TextError::OutOfMemory),
            },
            Err(_) => Err(TextError::NotUtf8),
        }
    }

    /// The bytes of the text, which are UTF-8.
    pub fn bytes(&self) -> &[u8]
        ensures value { result.now ≡ self.now }
        ensures utf8 { IsUtf8 result.now }
    {
        self.text.as_str().as_bytes()
    }

    /// The text as Rust's own.
    pub fn as_str(&self) -> &str
        ensures { result.now ≡ self.now }
    {
        self.text.as_str()
    }
}

impl Replicate for Text {
    fn copy(&self, alloc: Global) -> Result<Text, OutOfMemory> {
        Text::from_str(alloc, self.text.as_str())
    }
}

/// Bytes, which contracts see as their list.
#[derive(Drop)]
pub struct Bytes {
    bytes: Vec<u8>,
}

impl Model for Bytes {
    ghost use Rattle.std.specs.Prelude.{List, ℕ};

    ghost Value = { List ℕ };

    ghost view = { λ it. it.bytes.items };
}

impl Bytes {
    /// No bytes, which take no memory.
    pub fn new(alloc: Global) -> Bytes
        ensures { result ≡ [] }
    {
        Bytes {
            bytes: Vec::new(alloc),
        }
    }

    /// Puts bytes at the end.
    pub fn append(&mut self, bytes: &[u8]) -> Result<(), OutOfMemory>
        ensures ok { OnOk result (self.new ≡ self.old ++ bytes.now) }
        ensures err { OnErr result (self.new ≡ self.old) }
    {
        match self.bytes.extend_from_slice(bytes) {
            Ok(()) => Ok(()),
            Err(_) => Err(OutOfMemory),
        }
    }

    /// Puts the bytes of a text at the end.
    pub fn append_str(&mut self, text: &str) -> Result<(), OutOfMemory>
        ensures ok { OnOk result (self.new ≡ self.old ++ text.now) }
        ensures err { OnErr result (self.new ≡ self.old) }
    {
        self.append(text.as_bytes())
    }

    /// All the bytes, in order.
    pub fn bytes(&self) -> &[u8]
        ensures { result.now ≡ self.now }
    {
        self.bytes.as_slice()
    }

    /// The bytes of a string, which is moved and not copied.
    pub fn from_string(text: String) -> Bytes
        ensures { result ≡ string_bytes text }
    {
        Bytes {
            bytes: text.into_bytes(),
        }
    }

    /// A copy of these bytes.
    pub fn from_slice(alloc: Global, bytes: &[u8]) -> Result<Bytes, OutOfMemory>
        ensures { IfOk result (λ it. it ≡ bytes.now) }
    {
        match Vec::from_slice(alloc, bytes) {
            Ok(bytes) => Ok(Bytes { bytes }),
            Err(_) => Err(OutOfMemory),
        }
    }
}

impl Replicate for Bytes {
    fn copy(&self, alloc: Global) -> Result<Bytes, OutOfMemory> {
        Bytes::from_slice(alloc, self.bytes.as_slice())
    }
}
