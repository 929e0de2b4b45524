//! Lines.
ghost use Rattle.std.specs.Prelude.{◌≡◌, ◌<◌, ◌∷◌, ◌==◌, length, position};
ghost use Rattle.esto_ports.specs.Lines.{line_feed, lines_of};

// Where the first line feed stands.
fn find_feed(bytes: &[u8]) -> Option<usize>
    ensures { result ≡ position (λ b. b == line_feed) bytes.now }
{
    bytes.iter().position(|b| *b == b'\n')
}

/// The first line of these bytes without its line feed, and the bytes after that.
pub fn cut_line(bytes: &[u8]) -> (&[u8], &[u8])
    requires { 0 < length bytes.now }
    ensures lines { lines_of bytes.now ≡ result.0.now ∷ lines_of result.1.now }
    ensures less { length result.1.now < length bytes.now }
{
    match find_feed(bytes) {
        Some(end) => (&bytes[..end], &bytes[end + 1..]),
        None => (bytes, &[]),
    }
}
