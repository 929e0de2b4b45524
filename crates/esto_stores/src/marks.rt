//! Byte-order marks.
ghost use Rattle.std.specs.Prelude.{◌≡◌, ◌<◌, length, MatchOption};
ghost use Rattle.csv.specs.Reading.{is_bom};
ghost use Rattle.esto_stores.specs.Table.{without_marks};

// Whether three bytes are a byte-order mark.
fn is_mark(first: u8, second: u8, third: u8) -> bool
    ensures { result ≡ is_bom first second third }
{
    first == 0xEF && second == 0xBB && third == 0xBF
}

// The bytes after a byte-order mark, if there is one.
fn after_mark(bytes: &[u8]) -> Option<&[u8]>
    ensures { MatchOption result (without_marks bytes.now ≡ bytes.now)
        (λ rest. (without_marks bytes.now ≡ without_marks rest.now)
        × (length rest.now < length bytes.now)) }
{
    if bytes.len() < 3 || !is_mark(bytes[0], bytes[1], bytes[2]) {
        return None;
    }
    Some(&bytes[3..])
}

/// The bytes after each byte-order mark that stands at their start.
pub fn drop_marks(bytes: &[u8]) -> &[u8]
    ensures { result.now ≡ without_marks bytes.now }
{
    let mut rest = bytes;
    'marks: while let Some(tail) = after_mark(rest) {
        rest = tail;
    }
    rest
}
