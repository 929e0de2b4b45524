//! A script: the content of the next file, and what the lines are about.

use crate::contents::{put_constraint, put_dataset, put_fragment, put_line};
use crate::printing::put;
use crate::reading::{Refused, parts};
use esto_term::Bytes;
use std::alloc::Global;

/// What the lines of a script are about: what they set, and what they ask.
pub trait Subject: Drop + Sized {
    /// Nothing is set.
    fn new(alloc: Global) -> Result<Self, Refused>;

    /// Sets what the words say, also by the content of the next file, which it may take. Answers None where the word sets
    /// nothing.
    fn set(
        &mut self,
        alloc: Global,
        content: &mut Bytes,
        word: &str,
        rest: &str,
    ) -> Option<Result<(), Refused>>;

    /// Answers what the words ask of what lines have set.
    fn ask(
        &mut self,
        rt: &HostRuntime,
        alloc: Global,
        word: &str,
        rest: &str,
    ) -> Result<(), Refused>;
}

/// What lines have set: the content of the next file, and what they are about.
#[derive(Drop)]
pub struct Script<S> {
    content: Bytes,
    subject: S,
}

impl<S: Subject> Script<S> {
    /// Nothing is set.
    pub fn new(alloc: Global) -> Result<Script<S>, Refused> {
        let subject = S::new(alloc)?;
        Ok(Script {
            content: Bytes::new(alloc),
            subject,
        })
    }

    // Puts a section of a catalogue at the end of the content, or sets what the words say. Answers
    // None where the word sets nothing.
    fn set(&mut self, alloc: Global, word: &str, rest: &str) -> Option<Result<(), Refused>> {
        let content = &mut self.content;
        match word {
            "dataset" => Some(put_dataset(content, rest)),
            "fragment" => Some(put_fragment(content, rest)),
            "constraint" => Some(put_constraint(content, rest)),
            _ => self.subject.set(alloc, content, word, rest),
        }
    }

    fn obey_words(&mut self, rt: &HostRuntime, alloc: Global, line: &str) -> Result<(), Refused> {
        let (word, rest) = parts(line, ' ');
        if let Some(outcome) = self.set(alloc, word, rest) {
            return outcome;
        }
        put(rt, "> ");
        put(rt, line);
        put(rt, "\n");
        self.subject.ask(rt, alloc, word, rest)
    }

    /// Does what a line says. A line that can't be obeyed is `refused`.
    pub fn obey(&mut self, rt: &HostRuntime, alloc: Global, line: &str) {
        if line.is_empty() {
            return;
        }
        if line.starts_with('#') {
            put(rt, line);
            put(rt, "\n");
            return;
        }
        let outcome = match put_line(&mut self.content, line) {
            Some(outcome) => outcome,
            None => self.obey_words(rt, alloc, line),
        };
        if outcome.is_err() {
            put(rt, "refused\n");
        }
    }
}
