//! What the words of a line say: numbers, texts, and parts between signs.

use esto_term::{List, OutOfMemory, Text};
use std::alloc::{AllocError, Global};

/// Why a line is not obeyed: it is ill-formed, or memory is wanting.
#[derive(Clone, Copy, Drop)]
pub struct Refused;

impl From<AllocError> for Refused {
    fn from(_: AllocError) -> Refused {
        Refused
    }
}

impl From<OutOfMemory> for Refused {
    fn from(_: OutOfMemory) -> Refused {
        Refused
    }
}

/// Lets a value go.
pub fn let_go<T: Drop>(_value: T) {}

/// A number in decimal; 0 where the word is none.
pub fn number(word: &str) -> u64 {
    word.parse::<u64>().unwrap_or(0)
}

/// What stands before the first such sign and what after it; all and nothing where there is none.
pub fn parts(line: &str, sign: char) -> (&str, &str) {
    line.split_once(sign).unwrap_or((line, ""))
}

/// The text of a word.
pub fn text(alloc: Global, word: &str) -> Result<Text, Refused> {
    let text = Text::from_str(alloc, word)?;
    Ok(text)
}

// Puts what a part is read as at the end.
fn add_read<T: Drop, F: Fn(&str) -> Result<T, Refused>>(
    list: &mut List<T>,
    part: &str,
    read: &F,
) -> Result<(), Refused>
    requires { F.IsAlwaysCallable read.now }
{
    list.push(read(part)?)?;
    Ok(())
}

/// What the parts between these signs are read as, one by one.
pub fn each<T: Drop, F: Fn(&str) -> Result<T, Refused>>(
    alloc: Global,
    line: &str,
    sign: char,
    read: F,
) -> Result<List<T>, Refused>
    requires { F.IsAlwaysCallable read }
{
    let mut list = List::new(alloc);
    'parts: for part in line.split(sign) {
        add_read(&mut list, part, &read)?;
    }
    Ok(list)
}
