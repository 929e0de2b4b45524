//! The rows of the whole file, before its entries.
ghost use Rattle.std.specs.Prelude.{◌≡◌, ◌≢◌, ◌≤◌, Some, codes, pos, option_copied, length, IfOk, MatchOption};
ghost use Rattle.esto_catalog.specs.Rows.{Walks};
ghost use Rattle.esto_settings.specs.Settings.{setting_at};
ghost use Rattle.esto_settings.specs.declared.setting.Setting.TheVariants.{Integer};
ghost use Rattle.esto_catalog.specs.Whole.{is_two, top_keys, number_of, reads_toml, reads_version, reads_core, fits_section, fits_sections, reads_top, reads_whole, tables_of};
ghost use Rattle.esto_catalog.specs.Whole.{sections_of};

use crate::fault::{CatalogueError, TOP, fault};
use crate::row::{Keys, knows_keys};
use esto_settings::{Document, Field, SectionTables, Setting, TomlError, read_toml, setting_at};
use esto_status::CatalogueKind;
use esto_term::List;
use esto_text::Version;
use std::alloc::Global;

/// The greatest number of entries of a section.
pub const MAX_ENTRIES: usize = 256;

/// The version, whether the core of the plan is asked for, and the entries of the three sections.
#[derive(Drop)]
pub struct Sections {
    pub version: Version,
    pub core: bool,
    pub datasets: SectionTables,
    pub fragments: SectionTables,
    pub constraints: SectionTables,
}

// The document that the bytes are; else Toml.
fn document_of(alloc: Global, bytes: &[u8]) -> Result<Document, CatalogueError>
    ensures { Walks (reads_toml bytes.now) result }
{
    match read_toml(alloc, bytes) {
        Ok(document) => Ok(document),
        Err(TomlError::Refused) => Err(fault(alloc, CatalogueKind::Toml, TOP, "-", None)),
        Err(TomlError::OutOfMemory) => Err(CatalogueError::OutOfMemory),
    }
}

// Whether the version is set to the integer 2.
fn is_two(setting: Option<&Setting>) -> bool
    ensures { result ≡ is_two (option_copied setting.entry) }
{
    match setting {
        Some(Setting::Integer(number)) => *number == 2,
        Some(Setting::Text(_)) => false,
        Some(Setting::Texts(_)) => false,
        Some(Setting::Other) => false,
        None => false,
    }
}

// The keys of the top: `core` is one of version 2.
fn top_keys(entry: &[Field]) -> Keys
    ensures { result ≡ top_keys (setting_at (codes "version") entry.now) }
{
    if is_two(setting_at("version", entry)) {
        Keys::TopOfTwo
    } else {
        Keys::Top
    }
}

// The version of this number, where there is one.
fn version_of(number: i64) -> Option<Version>
    ensures { MatchOption result ((version : Version) → number ≢ pos (number_of version))
        (λ version. number ≡ pos (number_of version)) }
{
    match number {
        1 => Some(Version::One),
        2 => Some(Version::Two),
        _ => None,
    }
}

// The version to whose number it is set, where it is so.
fn set_version(setting: Option<&Setting>) -> Option<Version>
    ensures { MatchOption result
        ((version : Version) →
        ¬ (option_copied setting.entry ≡ Some (Integer (pos (number_of version)))))
        (λ version. option_copied setting.entry ≡ Some (Integer (pos (number_of version)))) }
{
    match setting {
        Some(Setting::Integer(number)) => version_of(*number),
        Some(Setting::Text(_)) => None,
        Some(Setting::Texts(_)) => None,
        Some(Setting::Other) => None,
        None => None,
    }
}

// The version, which is set to the integer 1 or 2; else Version.
#[tactic(auto, using(crate::proofs::RowLemmas::rows))]
fn read_version(alloc: Global, entry: &[Field]) -> Result<Version, CatalogueError>
    ensures { Walks (reads_version (setting_at (codes "version") entry.now)) result }
{
    match set_version(setting_at("version", entry)) {
        Some(version) => Ok(version),
        None => Err(fault(alloc, CatalogueKind::Version, TOP, "version", None)),
    }
}

// Whether the core of the plan is asked for, where the document says so; else WrongType.
#[tactic(auto, using(crate::proofs::RowLemmas::rows))]
fn read_core(alloc: Global, core: Option<bool>) -> Result<bool, CatalogueError>
    ensures { Walks (reads_core core) result }
{
    match core {
        Some(core) => Ok(core),
        None => Err(fault(alloc, CatalogueKind::WrongType, TOP, "core", None)),
    }
}

// The section is an array of tables, with at most `MAX_ENTRIES` entries; else WrongType or TooMany.
fn fits_section(
    alloc: Global,
    key: &str,
    section: &Option<SectionTables>,
) -> Result<(), CatalogueError>
    ensures { Walks (fits_section key.now section.now) result }
{
    let Some(tables) = section else {
        return Err(fault(alloc, CatalogueKind::WrongType, TOP, key, None));
    };
    if tables.len() > MAX_ENTRIES {
        return Err(fault(alloc, CatalogueKind::TooMany, TOP, key, None));
    }
    Ok(())
}

// The rows of the sections, in order: of datasets, of fragments and of constraints.
fn fits_sections(alloc: Global, document: &Document) -> Result<(), CatalogueError>
    ensures { Walks (fits_sections document.now) result }
{
    fits_section(alloc, "dataset", &document.datasets)?;
    fits_section(alloc, "fragment", &document.fragments)?;
    fits_section(alloc, "constraint", &document.constraints)
}

// The rows of the top, in order: unknown keys, the version, whether the core is asked for, the
// sections of datasets, of fragments and of constraints.
fn read_top(alloc: Global, document: &Document) -> Result<(Version, bool), CatalogueError>
    ensures { Walks (reads_top document.now) result }
{
    let entry = document.fields.items();
    let keys = top_keys(entry);
    knows_keys(alloc, TOP, keys, entry)?;
    let version = read_version(alloc, entry)?;
    let core = read_core(alloc, document.core)?;
    fits_sections(alloc, document)?;
    Ok((version, core))
}

// The tables of a section, or none where it is no array of tables.
fn tables_of(alloc: Global, section: Option<SectionTables>) -> SectionTables
    ensures { result ≡ tables_of section }
{
    match section {
        Some(tables) => tables,
        None => List::new(alloc),
    }
}

// The entries of the document's sections, with the version and whether the core is asked for.
fn sections_of(alloc: Global, version: Version, core: bool, document: Document) -> Sections
    ensures { result ≡ sections_of version core document }
{
    Sections {
        version,
        core,
        datasets: tables_of(alloc, document.datasets),
        fragments: tables_of(alloc, document.fragments),
        constraints: tables_of(alloc, document.constraints),
    }
}

/// The rows of the whole file before its entries, in order: TOML, unknown keys, the version,
/// whether the core is asked for, the sections of datasets, of fragments and of constraints.
pub fn read_whole(alloc: Global, bytes: &[u8]) -> Result<Sections, CatalogueError>
    ensures whole { Walks (reads_whole bytes.now) result }
    ensures few { IfOk result (λ sections. length sections.datasets ≤ MAX_ENTRIES) }
{
    let document = document_of(alloc, bytes)?;
    let (version, core) = read_top(alloc, &document)?;
    Ok(sections_of(alloc, version, core, document))
}
