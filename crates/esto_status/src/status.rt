//! How a command line ended.
ghost use Rattle.std.specs.Prelude.{◌≡◌};
ghost use Rattle.esto_status.specs.Line.{code_of};
ghost use Rattle.esto_status.specs.declared.status.Status.TheVariants as status;

use crate::fault::CatalogueFault;
use esto_chase_laws::Clash;
use esto_constraint::Cycle;
use esto_ports::{Difference, FileFault};
use esto_term::{OutOfMemory, Text};
use esto_text::TextFault;

/// How a command line ended.
#[derive(Drop)]
pub enum Status {
    /// The command's text was put.
    Done,
    /// Memory was refused, and nothing was put.
    OutOfMemory,
    /// The words are outside the grammar of the command line.
    Usage,
    /// The file of this name could not be read: the shelf was at a fault, which it counted.
    ReadFault(Text),
    /// The text could not be put: the sink was at a fault, which it counted.
    WriteFault,
    /// The file of this name is longer than this limit, in bytes.
    TooLong(Text, u64),
    /// The catalogue has this first fault.
    BadCatalogue(CatalogueFault),
    /// The query's text has this first fault.
    BadQuery(TextFault),
    /// By the catalogue's constraints a relation leads back to itself, along this cycle.
    NotAcyclic(Cycle),
    /// The content of the file of the fragment of this name has this first fault.
    BadFragment(Text, FileFault),
    /// No database that meets the catalogue's rules gives the query an answer: its chase ends with this clash.
    Unsatisfiable(Clash),
    /// No executable query over the fragments is equivalent to the query, so no set is listed.
    NoRewriting,
    /// The first number was asked for, counted from 1, and there are so many sets of the list, or atoms of the plan, which
    /// are fewer.
    NoSuchNumber(u64, u64),
    /// The dataset of this name has no file, and the command needs one.
    NoData(Text),
    /// The content of the file of the dataset of this name has this first fault.
    BadDataset(Text, FileFault),
    /// A row holds a node in this column, counted from 1, and no row holds one in a lesser: nodes have no text.
    NodeInRow(u64),
    /// The datasets' facts and the catalogue's rules, or the rows of a fragment and those of its view, first differ here.
    Differs(Difference),
    /// A key file cannot hold this cell, which has a tab, a carriage return or a line feed.
    KeyText(Text),
    /// The catalogue has no fragment of this name.
    NoSuchFragment(Text),
    /// The line of this number, counted from 1, is the first of a certificate that is not so.
    Rejected(u64),
    /// The heads of two queries, of which one is asked to contain the other, have these different lengths.
    HeadLengths(u64, u64),
}

impl From<OutOfMemory> for Status {
    ghost from_gives = { λ _ s. s ≡ status.OutOfMemory };

    fn from(_: OutOfMemory) -> Status {
        Status::OutOfMemory
    }
}

impl Status {
    /// The status of the process.
    pub fn code(&self) -> u8
        ensures { result ≡ code_of self.now }
    {
        match self {
            Status::Done => 0,
            Status::OutOfMemory => 1,
            Status::Usage => 2,
            Status::ReadFault(_) => 3,
            Status::WriteFault => 4,
            Status::TooLong(_, _) => 5,
            Status::BadCatalogue(_) => 6,
            Status::BadQuery(_) => 7,
            Status::NotAcyclic(_) => 8,
            Status::BadFragment(_, _) => 9,
            Status::Unsatisfiable(_) => 10,
            Status::NoRewriting => 11,
            Status::NoSuchNumber(_, _) => 12,
            Status::NoData(_) => 13,
            Status::BadDataset(_, _) => 14,
            Status::NodeInRow(_) => 15,
            Status::Differs(_) => 16,
            Status::KeyText(_) => 17,
            Status::NoSuchFragment(_) => 19,
            Status::Rejected(_) => 20,
            Status::HeadLengths(_, _) => 21,
        }
    }
}
