//! What is written in a catalogue's file, in plain data: above this crate nothing knows TOML. Start
//! from `read_toml`, `Document` and `setting_at`.
#![tactic(auto)]

mod setting;

pub use setting::{
    Document, Field, KeyList, SectionTables, Setting, TomlError, has_key, is_same, read_toml,
    setting_at,
};
