//! Why a text has no reading.
ghost use Rattle.std.specs.Prelude.{◌≡◌};
ghost use Rattle.esto_text.specs.declared.fault.ReadError.TheVariants.{OutOfMemory};

/// What is wrong with a text.
#[derive(Clone, Copy, PartialEq, Eq)]
pub enum TextKind {
    /// The bytes are not UTF-8.
    Utf8,
    /// The text is outside the grammar.
    Syntax,
    /// No relation has this name and this form, or no column of a layout this name.
    Unknown,
    /// The relation has another number of columns.
    Arity,
    /// The body, or the head of a constraint, has too many atoms.
    TooLarge,
    /// A view's head has this name twice.
    SameVariable,
    /// The body lacks this name, or this side of an equality is a wildcard.
    Unsafe,
    /// The head of this query of a union has another length than the first one's.
    HeadLength,
}

/// The first fault of a text, and the byte at which it stands, counted from 0.
#[derive(Clone, Copy, PartialEq, Eq)]
pub struct TextFault {
    pub offset: u64,
    pub kind: TextKind,
}

/// Why a text was not read.
#[derive(Drop)]
pub enum ReadError {
    /// The text has a fault.
    Fault(TextFault),
    OutOfMemory,
}

impl From<esto_term::OutOfMemory> for ReadError {
    ghost from_gives = { λ _ e. e ≡ OutOfMemory };

    fn from(_: esto_term::OutOfMemory) -> ReadError {
        ReadError::OutOfMemory
    }
}
