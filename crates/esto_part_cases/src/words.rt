//! The words that lines of a script begin with: what they set, and what they ask.

use crate::models::{
    put_coded, put_codes, put_encoded, put_inside, put_key_row, put_pairs, put_table,
};
use crate::refusing::put_refused_gets;
use crate::sets::ask_sets;
use crate::stage::Stage;
use crate::terms::put_terms;
use esto_script::{Refused, Subject};
use esto_term::Bytes;
use std::alloc::Global;
use std::mem;

// Takes the content for the catalogue, and begins a new one.
fn open(alloc: Global, stage: &mut Stage, content: &mut Bytes) -> Result<(), Refused> {
    let bytes = mem::replace(content, Bytes::new(alloc));
    stage.open(alloc, bytes.bytes())
}

// Takes the content for the file of the dataset of a number, and begins a new one.
fn take_file(
    alloc: Global,
    stage: &mut Stage,
    content: &mut Bytes,
    word: &str,
) -> Result<(), Refused> {
    let bytes = mem::replace(content, Bytes::new(alloc));
    stage.add_file(word, bytes)
}

// Answers what the words ask of what lines have set.
fn ask_stage(
    rt: &HostRuntime,
    alloc: Global,
    stage: &mut Stage,
    word: &str,
    rest: &str,
) -> Result<(), Refused> {
    if word.starts_with("make_") {
        return stage.make(rt, alloc, word, rest);
    }
    match word {
        "plan" => stage.set_plan(rt, alloc, rest),
        "listed" => stage.set_listed(rt, alloc, rest),
        _ => stage.answer(rt, alloc, word, rest),
    }
}

impl Subject for Stage {
    /// The catalogue is empty, and nothing else is set.
    fn new(alloc: Global) -> Result<Stage, Refused> {
        Stage::empty(alloc)
    }

    /// Sets what the words say of the catalogue, files, facts, the start of matches, and rules.
    fn set(
        &mut self,
        alloc: Global,
        content: &mut Bytes,
        word: &str,
        rest: &str,
    ) -> Option<Result<(), Refused>> {
        let outcome = match word {
            "catalogue" => open(alloc, self, content),
            "file" => take_file(alloc, self, content, rest),
            "facts" => self.set_facts(alloc, rest),
            "start" => self.set_start(alloc, rest),
            "rule" => self.add_rule(alloc, rest),
            "rules" => {
                self.forget_rules(alloc);
                Ok(())
            }
            _ => return None,
        };
        Some(outcome)
    }

    /// Answers what the words ask of terms, rows, documents, codes, sets and gets, or of what lines have set.
    fn ask(
        &mut self,
        rt: &HostRuntime,
        alloc: Global,
        word: &str,
        rest: &str,
    ) -> Result<(), Refused> {
        match word {
            "terms" => put_terms(rt, alloc),
            "table" => put_table(rt, alloc, rest),
            "pairs" => put_pairs(rt, alloc, rest),
            "key_row" => put_key_row(rt, alloc, rest),
            "coded" => put_coded(rt, alloc, rest),
            "codes" => put_codes(rt, alloc, rest),
            "encoded" => put_encoded(rt, alloc, rest),
            "inside" => put_inside(rt, alloc, rest),
            "products" | "union" | "joined" => ask_sets(rt, alloc, word, rest),
            "refused_gets" => put_refused_gets(rt, alloc, rest),
            _ => ask_stage(rt, alloc, self, word, rest),
        }
    }
}
