//! What is written in a catalogue, in plain data: after this file nothing knows TOML.
ghost use Rattle.std.specs.Prelude.{◌≡◌, ◌++◌, ◌∷◌, [], None, Some, codes, IfOk, IfErr, MatchOption, OnOk};
ghost use Rattle.toml.specs.Data.{get_member};
ghost use Rattle.toml.specs.View.{view, items_view, table_view};
ghost use Rattle.esto_settings.specs.Settings.{is_same, has_key, setting_at, texts_of, array_setting, setting_of, entry_of, switch_of, entries_of, section_of};
ghost use Rattle.esto_settings.specs.Settings.{document_of, IsDocument, IsTomlError};

use esto_term::{List, OutOfMemory, Text, TextRow};
use std::alloc::Global;
use toml::{Table, Value};

/// What a key is set to.
#[derive(Drop)]
pub enum Setting {
    Text(Text),
    Integer(i64),
    /// An array of texts alone, which may be empty.
    Texts(TextRow),
    /// Anything else.
    Other,
}

/// A key and what it is set to.
#[derive(Drop)]
pub struct Field {
    pub key: Text,
    pub setting: Setting,
}

/// The keys of a table with their settings.
pub type KeyList = List<Field>;

/// The entries of a section, in order.
pub type SectionTables = List<KeyList>;

/// A catalogue's file: its top keys; its switch `core`, which is false where it is absent, and None where it is no truth
/// value; and its sections, each None where it is no array of tables.
#[derive(Drop)]
pub struct Document {
    pub fields: KeyList,
    pub core: Option<bool>,
    pub datasets: Option<SectionTables>,
    pub fragments: Option<SectionTables>,
    pub constraints: Option<SectionTables>,
}

/// Why bytes have no document.
#[derive(Clone, Copy, PartialEq, Eq)]
pub enum TomlError {
    /// They are no TOML.
    Refused,
    OutOfMemory,
}

impl From<OutOfMemory> for TomlError {
    ghost use Rattle.std.specs.Prelude.{◌≡◌};
    ghost use Rattle.esto_settings.specs.declared.setting.TomlError.{TomlError};

    ghost from_gives = { λ _ e. e ≡ TomlError.OutOfMemory };

    fn from(_: OutOfMemory) -> TomlError {
        TomlError::OutOfMemory
    }
}

// Puts a text at the end.
fn push_text(alloc: Global, texts: &mut TextRow, text: &str) -> Result<(), OutOfMemory>
    ensures { OnOk result (texts.new ≡ texts.old ++ text.now ∷ []) }
{
    let text = Text::from_str(alloc, text)?;
    texts.push(text)
}

// The texts of an array, or None where it has something else.
fn texts_of(alloc: Global, array: &[Value]) -> Result<Option<TextRow>, OutOfMemory>
    ensures { IfOk result (λ it. it ≡ texts_of (items_view array.now)) }
{
    let mut texts = List::new(alloc);
    'items: for item in array {
        match item.as_str() {
            Some(text) => push_text(alloc, &mut texts, text)?,
            None => return Ok(None),
        }
    }
    Ok(Some(texts))
}

fn array_setting(alloc: Global, array: &[Value]) -> Result<Setting, OutOfMemory>
    ensures { IfOk result (λ it. it ≡ array_setting (texts_of (items_view array.now))) }
{
    match texts_of(alloc, array)? {
        Some(texts) => Ok(Setting::Texts(texts)),
        None => Ok(Setting::Other),
    }
}

fn setting_of(alloc: Global, value: &Value) -> Result<Setting, OutOfMemory>
    ensures { IfOk result (λ it. it ≡ setting_of (view value.now)) }
{
    if let Some(text) = value.as_str() {
        return Ok(Setting::Text(Text::from_str(alloc, text)?));
    }
    if let Some(number) = value.as_integer() {
        return Ok(Setting::Integer(number));
    }
    match value.as_array() {
        Some(array) => array_setting(alloc, array.as_slice()),
        None => Ok(Setting::Other),
    }
}

// Puts a key with its setting at the end.
fn push_field(
    alloc: Global,
    entry: &mut KeyList,
    key: &str,
    value: &Value,
) -> Result<(), OutOfMemory>
    ensures { OnOk result (entry.new ≡ entry.old
        ++ record { key = key.now; setting = setting_of (view value.now) } ∷ []) }
{
    let key = Text::from_str(alloc, key)?;
    let setting = setting_of(alloc, value)?;
    entry.push(Field { key, setting })
}

fn entry_of(alloc: Global, table: &Table) -> Result<KeyList, OutOfMemory>
    ensures { IfOk result (λ it. it ≡ entry_of (table_view table.now)) }
{
    let mut entry = List::new(alloc);
    'fields: for (key, value) in table {
        push_field(alloc, &mut entry, key.as_str(), value)?;
    }
    Ok(entry)
}

// Puts the entry of a table at the end.
fn push_entry(alloc: Global, entries: &mut SectionTables, table: &Table) -> Result<(), OutOfMemory>
    ensures { OnOk result (entries.new ≡ entries.old ++ entry_of (table_view table.now) ∷ []) }
{
    let entry = entry_of(alloc, table)?;
    entries.push(entry)
}

// The entries of an array, or None where it has something else than tables.
fn entries_of(alloc: Global, array: &[Value]) -> Result<Option<SectionTables>, OutOfMemory>
    ensures { IfOk result (λ it. it ≡ entries_of (items_view array.now)) }
{
    let mut entries = List::new(alloc);
    'items: for item in array {
        match item.as_table() {
            Some(table) => push_entry(alloc, &mut entries, table)?,
            None => return Ok(None),
        }
    }
    Ok(Some(entries))
}

// The entries of a section, or None where it is no array of tables.
fn section_of(alloc: Global, table: &Table, key: &str) -> Result<Option<SectionTables>, OutOfMemory>
    ensures { IfOk result (λ it. it ≡ section_of (get_member key.now (table_view table.now))) }
{
    let Some(value) = table.get(key) else {
        return Ok(Some(List::new(alloc)));
    };
    match value.as_array() {
        Some(array) => entries_of(alloc, array.as_slice()),
        None => Ok(None),
    }
}

// The truth value at the key, false where it is absent; or None where it is something else.
fn switch_of(table: &Table, key: &str) -> Option<bool>
    ensures { result ≡ switch_of (get_member key.now (table_view table.now)) }
{
    match table.get(key) {
        Some(value) => value.as_bool(),
        None => Some(false),
    }
}

// The document of a table whose datasets and fragments these are.
fn document_with(
    alloc: Global,
    table: &Table,
    datasets: Option<SectionTables>,
    fragments: Option<SectionTables>,
) -> Result<Document, OutOfMemory>
    requires datasets { datasets
        ≡ section_of (get_member (codes "dataset") (table_view table.now)) }
    requires fragments { fragments
        ≡ section_of (get_member (codes "fragment") (table_view table.now)) }
    ensures { IfOk result (λ it. it ≡ document_of (table_view table.now)) }
{
    let fields = entry_of(alloc, table)?;
    let constraints = section_of(alloc, table, "constraint")?;
    let core = switch_of(table, "core");
    Ok(Document {
        fields,
        core,
        datasets,
        fragments,
        constraints,
    })
}

fn document_of(alloc: Global, table: &Table) -> Result<Document, OutOfMemory>
    ensures { IfOk result (λ it. it ≡ document_of (table_view table.now)) }
{
    let datasets = section_of(alloc, table, "dataset")?;
    let fragments = section_of(alloc, table, "fragment")?;
    document_with(alloc, table, datasets, fragments)
}

/// The document that the bytes are, as UTF-8 and TOML; or why they are none.
pub fn read_toml(alloc: Global, bytes: &[u8]) -> Result<Document, TomlError>
    ensures document { IfOk result (IsDocument bytes.now) }
    ensures error { IfErr result (IsTomlError bytes.now) }
{
    match toml::table_from_slice(alloc, bytes) {
        Ok(table) => Ok(document_of(alloc, &table)?),
        Err(error) if error.is_memory() => Err(TomlError::OutOfMemory),
        Err(_) => Err(TomlError::Refused),
    }
}

/// Whether the texts are the same.
pub fn is_same(text: &Text, other: &str) -> bool
    ensures { result ≡ is_same text.now other.now }
{
    text.bytes() == other.as_bytes()
}

/// Whether the entry has the key.
pub fn has_key(key: &str, entry: &[Field]) -> bool
    ensures { result ≡ has_key key.now entry.now }
{
    entry.iter().any(|field| is_same(&field.key, key))
}

/// What the key is set to, where the entry has it.
pub fn setting_at<'a>(key: &str, entry: &'a [Field]) -> Option<&'a Setting>
    ensures { MatchOption result (setting_at key.now entry.now ≡ None) (λ setting.
        setting_at key.now entry.now ≡ Some setting.now) }
{
    'fields: for field in entry {
        if is_same(&field.key, key) {
            return Some(&field.setting);
        }
    }
    None
}
