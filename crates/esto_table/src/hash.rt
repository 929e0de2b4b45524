//! Hashes of terms.
ghost use Rattle.std.specs.Prelude.{◌≡◌};
ghost use Rattle.esto_table.specs.Hashes.{mixed, hash_from, term_hash};

use esto_term::Term;

/// By what a hash is multiplied before more is taken into it.
const FACTOR: u64 = 0x9E37_79B9_7F4A_7C15;

/// The hash with more taken into it.
pub fn mixed(hash: u64, more: u64) -> u64
    ensures { result ≡ mixed hash more }
{
    hash.wrapping_mul(FACTOR).wrapping_add(more)
}

/// The hash of a text.
fn text_hash(text: &[u8]) -> u64
    ensures { result ≡ hash_from 1 text.now }
{
    let mut hash: u64 = 1;
    'bytes: for byte in text {
        hash = mixed(hash, *byte as u64);
    }
    hash
}

/// The hash of a term.
pub fn term_hash(term: &Term) -> u64
    ensures { result ≡ term_hash term.now }
{
    match term {
        Term::Const(text) => text_hash(text.bytes()),
        Term::Plain(number) => mixed(2, *number),
        Term::Made(rule, variable, frontier) => {
            let mut hash = mixed(mixed(3, *rule), *variable);
            'frontier: for part in frontier.items() {
                hash = mixed(hash, term_hash(part));
            }
            hash
        }
    }
}
