//! The line that names a status.
ghost use Rattle.std.specs.Prelude.{◌≡◌, ◌+◌, ◌++◌, IfOk, OnOk, codes};
ghost use Rattle.std.specs.Fmt.{decimal};
ghost use Rattle.std.specs.List.{flat_map};
ghost use Rattle.csv.specs.Writing.{default_writer, row_text};
ghost use Rattle.esto_status.specs.Line.{catalogue_word, cell_of, clash_text, difference_text, file_word, kind_word, line_of, section_word, way_text};
ghost use Rattle.esto_status.specs.Line.{IsCounted, IsOfFile, within_text};
ghost use Rattle.esto_views.specs.Printing.{constant_text};
ghost use Rattle.esto_status.specs.declared.status.Status.TheVariants as status;

use crate::cell::{cell_text, record_text};
use crate::fault::{CatalogueFault, CatalogueKind, Section};
use crate::status::Status;
use esto_chase_laws::Clash;
use esto_constraint::Cycle;
use esto_ports::{Difference, FileFault, FileKind};
use esto_term::{Bytes, OutOfMemory, Text, TextRow};
use esto_text::{TextFault, TextKind};
use esto_views::{put_constant, put_number};
use std::alloc::Global;

// Puts a name, or another text, as one cell at the end.
fn put_cell(alloc: Global, line: &mut Bytes, name: &Text) -> Result<(), OutOfMemory>
    ensures { OnOk result (line.new ≡ line.old ++ cell_of name.now) }
{
    let cell = cell_text(alloc, name.bytes())?;
    line.append(cell.bytes())
}

// Puts cells as a record at the end.
fn put_record(alloc: Global, line: &mut Bytes, cells: &TextRow) -> Result<(), OutOfMemory>
    ensures { OnOk result (line.new ≡ line.old ++ row_text default_writer cells.now) }
{
    let record = record_text(alloc, cells)?;
    line.append(record.bytes())
}

// Puts a line of a word and a name, or another text, as one cell.
fn put_named(alloc: Global, line: &mut Bytes, word: &str, name: &Text) -> Result<(), OutOfMemory>
    ensures { OnOk result (line.new ≡ line.old ++ (word.now ++ cell_of name.now ++ codes "\n")) }
{
    line.append(word.as_bytes())?;
    put_cell(alloc, line, name)?;
    line.append(b"\n")
}

// Puts a line of a word and a number.
fn put_numbered(alloc: Global, line: &mut Bytes, word: &str, number: u64) -> Result<(), OutOfMemory>
    ensures { OnOk result (line.new ≡ line.old
        ++ (word.now ++ (decimal number ++ codes "\n"))) }
{
    line.append(word.as_bytes())?;
    put_number(alloc, line, number as u128)?;
    line.append(b"\n")
}

// Puts a line of a word and two numbers.
fn put_counts(
    alloc: Global,
    line: &mut Bytes,
    word: &str,
    one: u64,
    other: u64,
) -> Result<(), OutOfMemory>
    ensures { OnOk result (line.new ≡ line.old ++ (word.now
        ++ (decimal one ++ (codes " " ++ (decimal other ++ codes "\n"))))) }
{
    line.append(word.as_bytes())?;
    put_number(alloc, line, one as u128)?;
    put_numbered(alloc, line, " ", other)
}

// Puts the line of a file that is too long.
fn put_too_long(alloc: Global, line: &mut Bytes, name: &Text, limit: u64) -> Result<(), OutOfMemory>
    ensures { OnOk result (line.new ≡ line.old ++ line_of (status.TooLong name.now limit)) }
{
    line.append(b"TooLong ")?;
    put_cell(alloc, line, name)?;
    put_numbered(alloc, line, " ", limit)
}

// The word of a kind of a text's fault.
fn kind_word(kind: TextKind) -> &'static str
    ensures { result.now ≡ kind_word kind }
{
    match kind {
        TextKind::Utf8 => "Utf8",
        TextKind::Syntax => "Syntax",
        TextKind::Unknown => "Unknown",
        TextKind::Arity => "Arity",
        TextKind::TooLarge => "TooLarge",
        TextKind::SameVariable => "SameVariable",
        TextKind::Unsafe => "Unsafe",
        TextKind::HeadLength => "HeadLength",
    }
}

// Puts the place and the word of a text's fault at the end.
fn put_text_fault(alloc: Global, line: &mut Bytes, fault: TextFault) -> Result<(), OutOfMemory>
    ensures { OnOk result (line.new ≡ line.old
        ++ (decimal fault.offset ++ (codes " " ++ kind_word fault.kind))) }
{
    put_number(alloc, line, fault.offset as u128)?;
    line.append(b" ")?;
    line.append(kind_word(fault.kind).as_bytes())
}

// Puts the line of a query's fault.
fn put_bad_query(alloc: Global, line: &mut Bytes, fault: TextFault) -> Result<(), OutOfMemory>
    ensures { OnOk result (line.new ≡ line.old ++ line_of (status.BadQuery fault)) }
{
    line.append(b"BadQuery ")?;
    put_text_fault(alloc, line, fault)?;
    line.append(b"\n")
}

// The word of a kind of a catalogue's fault.
fn catalogue_word(kind: CatalogueKind) -> &'static str
    ensures { result.now ≡ catalogue_word kind }
{
    match kind {
        CatalogueKind::Toml => "Toml",
        CatalogueKind::UnknownKey => "UnknownKey",
        CatalogueKind::Version => "Version",
        CatalogueKind::WrongType => "WrongType",
        CatalogueKind::TooMany => "TooMany",
        CatalogueKind::Missing => "Missing",
        CatalogueKind::Unfit => "Unfit",
        CatalogueKind::BadName => "BadName",
        CatalogueKind::SameName => "SameName",
        CatalogueKind::BadModel => "BadModel",
        CatalogueKind::BadStore => "BadStore",
        CatalogueKind::BadColumns => "BadColumns",
        CatalogueKind::BadLayout => "BadLayout",
        CatalogueKind::BadText => "BadText",
        CatalogueKind::BadPattern => "BadPattern",
        CatalogueKind::BadAccess => "BadAccess",
        CatalogueKind::BadWeight => "BadWeight",
    }
}

// The word of a section.
fn section_word(section: Section) -> &'static str
    ensures { result.now ≡ section_word section }
{
    match section {
        Section::Top => "top",
        Section::Dataset => "dataset",
        Section::Fragment => "fragment",
        Section::Constraint => "constraint",
    }
}

// Puts a text's fault at the end, where there is one.
fn put_within(alloc: Global, line: &mut Bytes, fault: &Option<TextFault>) -> Result<(), OutOfMemory>
    ensures { OnOk result (line.new ≡ line.old ++ within_text fault.now) }
{
    match fault {
        Some(fault) => {
            line.append(b" ")?;
            put_text_fault(alloc, line, *fault)
        }
        None => Ok(()),
    }
}

// Puts the words of a catalogue's fault and of its section at the end.
fn put_words(line: &mut Bytes, fault: &CatalogueFault) -> Result<(), OutOfMemory>
    ensures { OnOk result (line.new ≡ line.old ++ (catalogue_word fault.now.kind
        ++ (codes " " ++ section_word fault.now.section))) }
{
    line.append(catalogue_word(fault.kind).as_bytes())?;
    line.append(b" ")?;
    line.append(section_word(fault.section).as_bytes())
}

// Puts the words of a catalogue's fault and of its section, and the number of what has it, at the end.
fn put_section(alloc: Global, line: &mut Bytes, fault: &CatalogueFault) -> Result<(), OutOfMemory>
    ensures { OnOk result (line.new ≡ line.old ++ (catalogue_word fault.now.kind
        ++ (codes " " ++ (section_word fault.now.section
        ++ (codes " " ++ (decimal fault.now.number ++ codes " ")))))) }
{
    put_words(line, fault)?;
    line.append(b" ")?;
    put_number(alloc, line, fault.number as u128)?;
    line.append(b" ")
}

// Puts the line of a catalogue's fault.
fn put_bad_catalogue(
    alloc: Global,
    line: &mut Bytes,
    fault: &CatalogueFault,
) -> Result<(), OutOfMemory>
    ensures { OnOk result (line.new ≡ line.old ++ line_of (status.BadCatalogue fault.now)) }
{
    line.append(b"BadCatalogue ")?;
    put_section(alloc, line, fault)?;
    put_cell(alloc, line, &fault.key)?;
    put_within(alloc, line, &fault.text)?;
    line.append(b"\n")
}

// Puts an arrow and a name at the end.
fn put_arrow(line: &mut Bytes, name: &Text) -> Result<(), OutOfMemory>
    ensures { OnOk result (line.new ≡ line.old ++ (codes " -> " ++ name.now)) }
{
    line.append(b" -> ")?;
    line.append(name.bytes())
}

// Puts an arrow and a name at the end for each of the names.
fn put_arrows(line: &mut Bytes, names: &[Text]) -> Result<(), OutOfMemory>
    ensures { OnOk result (line.new ≡ line.old
        ++ flat_map (λ name. codes " -> " ++ name) names.now) }
{
    'names: for name in names {
        put_arrow(line, name)?;
    }
    Ok(())
}

// Puts the names along a cycle at the end, back to the first.
fn put_way(line: &mut Bytes, names: &[Text]) -> Result<(), OutOfMemory>
    ensures { OnOk result (line.new ≡ line.old ++ way_text names.now) }
{
    let Some((first, rest)) = names.split_first() else {
        return Ok(());
    };
    line.append(first.bytes())?;
    put_arrows(line, rest)?;
    put_arrow(line, first)
}

// Puts the line of a cycle.
fn put_not_acyclic(line: &mut Bytes, cycle: &Cycle) -> Result<(), OutOfMemory>
    ensures { OnOk result (line.new ≡ line.old ++ line_of (status.NotAcyclic cycle.now)) }
{
    line.append(b"NotAcyclic ")?;
    put_way(line, cycle.names.items())?;
    line.append(b"\n")
}

// Puts two constants at the end.
fn put_constants(line: &mut Bytes, one: &Text, other: &Text) -> Result<(), OutOfMemory>
    ensures { OnOk result (line.new ≡ line.old
        ++ (constant_text one.now ++ (codes " " ++ constant_text other.now))) }
{
    put_constant(line, one)?;
    line.append(b" ")?;
    put_constant(line, other)
}

// Puts the number of a denial at the end, counted from 1.
fn put_denial(alloc: Global, line: &mut Bytes, rule: usize) -> Result<(), OutOfMemory>
    ensures { OnOk result (line.new ≡ line.old ++ (codes "constraint " ++ decimal (rule + 1))) }
{
    line.append(b"constraint ")?;
    put_number(alloc, line, rule as u128 + 1)
}

// Puts what clashes at the end.
fn put_clash(alloc: Global, line: &mut Bytes, clash: &Clash) -> Result<(), OutOfMemory>
    ensures { OnOk result (line.new ≡ line.old ++ clash_text clash.now) }
{
    match clash {
        Clash::Equal(one, other) => put_constants(line, one, other),
        Clash::Denied(rule) => put_denial(alloc, line, *rule),
    }
}

// Puts the line of a clash.
fn put_unsatisfiable(alloc: Global, line: &mut Bytes, clash: &Clash) -> Result<(), OutOfMemory>
    ensures { OnOk result (line.new ≡ line.old ++ line_of (status.Unsatisfiable clash.now)) }
{
    line.append(b"Unsatisfiable ")?;
    put_clash(alloc, line, clash)?;
    line.append(b"\n")
}

// The word of a kind of a file's fault.
fn file_word(kind: FileKind) -> &'static str
    ensures { result.now ≡ file_word kind }
{
    match kind {
        FileKind::NoHeader => "NoHeader",
        FileKind::Header => "Header",
        FileKind::Length => "Length",
        FileKind::NotUtf8 => "NotUtf8",
        FileKind::BadJson => "BadJson",
        FileKind::NotArray => "NotArray",
        FileKind::Cells => "Cells",
    }
}

// Puts the word and the place of a file's fault at the end of a line.
fn put_file_fault(alloc: Global, line: &mut Bytes, fault: FileFault) -> Result<(), OutOfMemory>
    ensures { OnOk result (line.new ≡ line.old ++ (codes " "
        ++ (file_word fault.kind ++ (codes " " ++ (decimal fault.place ++ codes "\n"))))) }
{
    line.append(b" ")?;
    line.append(file_word(fault.kind).as_bytes())?;
    put_numbered(alloc, line, " ", fault.place)
}

// Puts a line of a word, of the name of a fragment or a dataset, and of a fault of its file.
fn put_bad_file(
    alloc: Global,
    line: &mut Bytes,
    word: &str,
    name: &Text,
    fault: FileFault,
) -> Result<(), OutOfMemory>
    ensures { OnOk result (line.new ≡ line.old ++ (word.now ++ (cell_of name.now ++ (codes " "
        ++ (file_word fault.kind ++ (codes " " ++ (decimal fault.place ++ codes "\n"))))))) }
{
    line.append(word.as_bytes())?;
    put_cell(alloc, line, name)?;
    put_file_fault(alloc, line, fault)
}

// Puts the number of a rule and a record at the end.
fn put_rule(
    alloc: Global,
    line: &mut Bytes,
    number: u64,
    cells: &TextRow,
) -> Result<(), OutOfMemory>
    ensures { OnOk result (line.new ≡ line.old ++ (codes "constraint "
        ++ (decimal number ++ codes " ") ++ row_text default_writer cells.now)) }
{
    line.append(b"constraint ")?;
    put_number(alloc, line, number as u128)?;
    line.append(b" ")?;
    put_record(alloc, line, cells)
}

// Puts the name of a fragment, how a row of it differs, and the row as a record at the end.
fn put_row(
    alloc: Global,
    line: &mut Bytes,
    name: &Text,
    how: &str,
    row: &TextRow,
) -> Result<(), OutOfMemory>
    ensures { OnOk result (line.new ≡ line.old ++ (codes "fragment " ++ cell_of name.now
        ++ how.now ++ row_text default_writer row.now)) }
{
    line.append(b"fragment ")?;
    put_cell(alloc, line, name)?;
    line.append(how.as_bytes())?;
    put_record(alloc, line, row)
}

// Puts a difference at the end.
fn put_difference(
    alloc: Global,
    line: &mut Bytes,
    difference: &Difference,
) -> Result<(), OutOfMemory>
    ensures { OnOk result (line.new ≡ line.old ++ difference_text difference.now) }
{
    match difference {
        Difference::Rule(number, cells) => put_rule(alloc, line, *number, cells),
        Difference::Missing(name, row) => put_row(alloc, line, name, " missing ", row),
        Difference::Extra(name, row) => put_row(alloc, line, name, " extra ", row),
    }
}

// Puts the line of a difference.
fn put_differs(alloc: Global, line: &mut Bytes, difference: &Difference) -> Result<(), OutOfMemory>
    ensures { OnOk result (line.new ≡ line.old ++ line_of (status.Differs difference.now)) }
{
    line.append(b"Differs ")?;
    put_difference(alloc, line, difference)
}

// Puts the line of a status that has numbers alone.
fn put_counted(alloc: Global, line: &mut Bytes, status: &Status) -> Result<(), OutOfMemory>
    requires { IsCounted status.now }
    ensures { OnOk result (line.new ≡ line.old ++ line_of status.now) }
{
    match status {
        Status::NoSuchNumber(number, listed) => {
            put_counts(alloc, line, "NoSuchNumber ", *number, *listed)
        }
        Status::NodeInRow(column) => put_numbered(alloc, line, "NodeInRow ", *column),
        Status::Rejected(number) => put_numbered(alloc, line, "Rejected ", *number),
        Status::HeadLengths(one, other) => put_counts(alloc, line, "HeadLengths ", *one, *other),
        _ => unreachable!(),
    }
}

// Puts the line of a status that names a file, or what is in one.
fn put_of_file(alloc: Global, line: &mut Bytes, status: &Status) -> Result<(), OutOfMemory>
    requires { IsOfFile status.now }
    ensures { OnOk result (line.new ≡ line.old ++ line_of status.now) }
{
    match status {
        Status::ReadFault(name) => put_named(alloc, line, "ReadFault ", name),
        Status::TooLong(name, limit) => put_too_long(alloc, line, name, *limit),
        Status::BadFragment(name, fault) => {
            put_bad_file(alloc, line, "BadFragment ", name, *fault)
        }
        Status::NoData(name) => put_named(alloc, line, "NoData ", name),
        Status::BadDataset(name, fault) => put_bad_file(alloc, line, "BadDataset ", name, *fault),
        Status::KeyText(cell) => put_named(alloc, line, "KeyText ", cell),
        Status::NoSuchFragment(name) => put_named(alloc, line, "NoSuchFragment ", name),
        _ => unreachable!(),
    }
}

// Puts the line of a status.
fn put_status(alloc: Global, line: &mut Bytes, status: &Status) -> Result<(), OutOfMemory>
    ensures { OnOk result (line.new ≡ line.old ++ line_of status.now) }
{
    match status {
        Status::Done | Status::OutOfMemory => Ok(()),
        Status::Usage => line.append(b"Usage\n"),
        Status::WriteFault => line.append(b"WriteFault\n"),
        Status::BadCatalogue(fault) => put_bad_catalogue(alloc, line, fault),
        Status::BadQuery(fault) => put_bad_query(alloc, line, *fault),
        Status::NotAcyclic(cycle) => put_not_acyclic(line, cycle),
        Status::Unsatisfiable(clash) => put_unsatisfiable(alloc, line, clash),
        Status::NoRewriting => line.append(b"NoRewriting\n"),
        Status::Differs(difference) => put_differs(alloc, line, difference),
        Status::NoSuchNumber(_, _)
        | Status::NodeInRow(_)
        | Status::Rejected(_)
        | Status::HeadLengths(_, _) => put_counted(alloc, line, status),
        Status::ReadFault(_)
        | Status::TooLong(_, _)
        | Status::BadFragment(_, _)
        | Status::NoData(_)
        | Status::BadDataset(_, _)
        | Status::KeyText(_)
        | Status::NoSuchFragment(_) => put_of_file(alloc, line, status),
    }
}

/// The line of a status, ended by a line feed. Done and OutOfMemory have none. The name of a file or a fragment and the
/// key of a catalogue are written as one CSV cell. A cycle is written as the names of its relations with arrows between them,
/// back to the first. Of a clash two constants are written as a list writes them, the lesser first, and a denial as
/// `constraint` and its number among all rules, counted from 1. A difference is written with a CSV record of its row or of the
/// values of its match.
pub fn status_line(alloc: Global, status: &Status) -> Result<Bytes, OutOfMemory>
    ensures { IfOk result (λ line. line ≡ line_of status.now) }
{
    let mut line = Bytes::new(alloc);
    put_status(alloc, &mut line, status)?;
    Ok(line)
}
