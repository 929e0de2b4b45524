//! The links of a get that the cells of a row so far decide.
ghost use Rattle.std.specs.Prelude.{◌≡◌, ◌↔◌, ◌⊎◌, ◌≤◌, List, ℕ, length, map, Contains, IfOk, OnOk, IsTrue};
ghost use Rattle.esto_steps.specs.declared.steps.Link.{Link};
ghost use Rattle.esto_steps.specs.declared.steps.Source.TheVariants.{Cell};
ghost use Rattle.esto_steps.specs.Meaning.{IsMet, Follows};
ghost use Rattle.esto_steps.specs.Named.{IsEarly};

use crate::steps::{Get, Link, Links, Source, Sources};
use esto_term::{List, OutOfMemory};
use std::alloc::Global;

/// Whether the source is a code or one of the first cells, so many.
fn is_early(source: &Source, width: usize) -> bool
    ensures { IsTrue result ↔ IsEarly width source.now }
{
    match source {
        Source::Code(_) => true,
        Source::Cell(place) => *place < width,
    }
}

/// Puts the link at the end, if its source is early.
fn push_early(links: &mut Links, link: &Link, width: usize) -> Result<(), OutOfMemory>
    ensures { OnOk result ((it : Link) → Contains links.new it
        → Contains links.old it ⊎ (IsEarly width link.now.source × (it ≡ link.now))) }
{
    if !is_early(&link.source, width) {
        return Ok(());
    }
    links.push(*link)
}

/// The links of the get that any row which follows cells of at least the width meets by the cells alone: the inputs,
/// and the filters whose sources are among the first cells.
pub(crate) fn early_links(alloc: Global, get: &Get, width: usize) -> Result<Links, OutOfMemory>
    ensures { IfOk result (λ links. (cells row : List ℕ) → width ≤ length cells
        → Follows get.now cells row
        → (link : Link) → Contains links link → IsMet cells row link) }
{
    let mut links = List::new(alloc);
    'inputs: for link in get.inputs.items() {
        links.push(*link)?;
    }
    'filters: for link in get.filters.items() {
        push_early(&mut links, link, width)?;
    }
    Ok(links)
}

/// The sources of the links.
pub fn sources_of(alloc: Global, links: &Links) -> Result<Sources, OutOfMemory>
    ensures { IfOk result (λ it. it ≡ map (λ link. link.source) links.now) }
{
    let mut sources = List::new(alloc);
    'links: for link in links.items() {
        sources.push(link.source)?;
    }
    Ok(sources)
}

/// The columns of the links, as cells of the fragment's row.
pub fn columns_of(alloc: Global, links: &Links) -> Result<Sources, OutOfMemory>
    ensures { IfOk result (λ it. it ≡ map (λ link. Cell link.column) links.now) }
{
    let mut columns = List::new(alloc);
    'links: for link in links.items() {
        columns.push(Source::Cell(link.column))?;
    }
    Ok(columns)
}
