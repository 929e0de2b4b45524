//! The program `esto`: a polystore mediator.
#![tactic(auto)]

use esto_ports::{FolderShelf, OutSink, Shelf, Sink};
use esto_status::Status;
use esto_term::{List, OutOfMemory, Text, TextError};
use esto_top::mediate;
use std::alloc::Global;
use std::env;
use std::io::ErrorKind;
use std::process::ExitCode;

// Puts the word that an argument is at the end.
fn add_word(alloc: Global, words: &mut List<Text>, argument: &str) -> Result<(), TextError> {
    let word = Text::from_bytes(alloc, argument.as_bytes())?;
    match words.push(word) {
        Ok(()) => Ok(()),
        Err(OutOfMemory) => Err(TextError::OutOfMemory),
    }
}

// The words after the program's name.
fn words_of(rt: &HostRuntime, alloc: Global) -> Result<List<Text>, TextError> {
    let mut words = List::new(alloc);
    let arguments = match env::args(rt) {
        Ok(arguments) => arguments,
        Err(error) if error.kind() == ErrorKind::InvalidData => return Err(TextError::NotUtf8),
        Err(_) => return Err(TextError::OutOfMemory),
    };
    'arguments: for argument in arguments.skip(1) {
        add_word(alloc, &mut words, argument.as_str())?;
    }
    Ok(words)
}

// The code of a status, which is let go.
fn code_of(status: Status) -> u8 {
    let code = status.code();
    drop(status);
    code
}

// The code of the status that the words end with, over a shelf and a sink.
fn code_of_words<S: Shelf, O: Sink>(
    alloc: Global,
    words: &[Text],
    shelf: &mut S,
    out: &mut O,
) -> u8 {
    code_of(mediate(alloc, words, shelf, out))
}

// Words that are not UTF-8 are outside the claims, and are answered as no words, which are outside the grammar.
fn main(rt: HostRuntime) -> ExitCode {
    let alloc = rt.alloc();
    let mut shelf = FolderShelf::new(&rt);
    let mut out = OutSink::new(&rt);
    let code = match words_of(&rt, alloc) {
        Ok(words) => code_of_words(alloc, words.items(), &mut shelf, &mut out),
        Err(TextError::NotUtf8) => code_of_words(alloc, &[], &mut shelf, &mut out),
        Err(TextError::OutOfMemory) => code_of(Status::OutOfMemory),
    };
    ExitCode::from(code)
}
