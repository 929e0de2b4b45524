//! Cases of the parts below the commands, in scripts whose names are the words of the command line: terms, matches, rules,
//! chases, products, orders, lists and what they come from, gets, rows, documents, codes and datasets' files.
#![tactic(auto)]

mod chasing;
mod loading;
mod making;
mod matching;
mod models;
mod orders;
mod printing;
mod reading;
mod refusing;
mod sets;
mod stage;
mod terms;
mod words;
mod worlds;

use crate::stage::Stage;
use esto_script::obey_scripts;
use std::process::ExitCode;

fn main(rt: HostRuntime) -> ExitCode {
    obey_scripts::<Stage>(&rt)
}
