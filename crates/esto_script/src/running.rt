//! The scripts of a command line.

use crate::reading::{Refused, let_go, text};
use crate::script::{Script, Subject};
use esto_ports::{FolderShelf, Shelf};
use esto_term::{Bytes, Text};
use std::alloc::Global;
use std::env;
use std::process::ExitCode;

// The bytes of the file of that name.
fn bytes_of(rt: &HostRuntime, alloc: Global, name: &Text) -> Result<Bytes, Refused> {
    match FolderShelf::new(rt).fetch(alloc, name, 1_000_000) {
        Ok(bytes) => Ok(bytes),
        Err(_) => Err(Refused),
    }
}

// The text that the bytes are.
fn text_of(alloc: Global, bytes: &[u8]) -> Result<Text, Refused> {
    match Text::from_bytes(alloc, bytes) {
        Ok(text) => Ok(text),
        Err(_) => Err(Refused),
    }
}

// The text of the file of that name.
fn script_of(rt: &HostRuntime, alloc: Global, name: &str) -> Result<Text, Refused> {
    let name = text(alloc, name)?;
    let bytes = bytes_of(rt, alloc, &name)?;
    text_of(alloc, bytes.bytes())
}

// Does what the lines of a text say, one after the other.
fn obey_lines<S: Subject>(rt: &HostRuntime, alloc: Global, script: &mut Script<S>, text: &str) {
    'lines: for line in text.split('\n') {
        script.obey(rt, alloc, line);
    }
}

// Does what the file of that name says.
fn obey_file<S: Subject>(
    rt: &HostRuntime,
    alloc: Global,
    script: &mut Script<S>,
    name: &str,
) -> Result<(), Refused> {
    let text = script_of(rt, alloc, name)?;
    obey_lines(rt, alloc, script, text.as_str());
    Ok(())
}

// Does what the lines of a script say.
fn obey_all<S: Subject>(rt: &HostRuntime, alloc: Global, name: &str) -> Result<(), Refused> {
    let mut script = Script::<S>::new(alloc)?;
    let outcome = obey_file(rt, alloc, &mut script, name);
    let_go(script);
    outcome
}

// Whether what the lines of the script of that name say could be done.
fn is_obeyed<S: Subject>(rt: &HostRuntime, alloc: Global, name: String) -> bool {
    obey_all::<S>(rt, alloc, name.as_str()).is_ok()
}

/// Obeys the scripts whose names are the words of the command line, each with nothing set at its start. The code is 1
/// where one of them can't be read, and 0 else.
pub fn obey_scripts<S: Subject>(rt: &HostRuntime) -> ExitCode {
    let alloc = rt.alloc();
    let Ok(names) = env::args(rt) else {
        return ExitCode::from(1);
    };
    'names: for name in names.skip(1) {
        if !is_obeyed::<S>(rt, alloc, name) {
            return ExitCode::from(1);
        }
    }
    ExitCode::from(0)
}
