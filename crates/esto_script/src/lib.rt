//! Scripts of cases: how their lines are read, and how what comes of them is printed. Most lines of a script set what
//! later lines ask about. A line that asks is printed after `> `, and then what comes of it; a line that begins with `#`
//! is a heading. Start from `Subject` and `obey_scripts`.
#![tactic(auto)]

mod contents;
mod printing;
mod reading;
mod running;
mod script;

pub use printing::{put, put_bytes, put_counted, put_digits};
pub use reading::{Refused, each, let_go, number, parts, text};
pub use running::obey_scripts;
pub use script::Subject;
