//! Laws of the facts of datasets and the rows of fragments.
ghost use Rattle.esto_fill.specs.Laws.{AnswersRestOnDatasets, AnswersRestOnWantedFacts, DocumentsAreLawful, LoadedAreFlat, FactsStand, FactsAreOne, FaultsAreOne, ReadableHaveNone, AnswersAreOne};
ghost use Rattle.esto_fill.specs.Laws.{UnionAnswersAreOne, JudgementsAreOne, FillsAreOne, AuditsAreOne, AuditsAreOverFiles};

use esto_rows::rising_rows_are_one;
use esto_semantics::databases_stand_for_facts;

/// A law: what is loaded keeps what its description says.
pub fn loaded_facts_are_flat()
    ensures { LoadedAreFlat }
{}

/// A law: the facts of files, of which no two are of one dataset, meet the rules of documents whose relations no other
/// dataset has, where the names of fields rise in each object of the documents, as they do in what is loaded.
pub fn documents_are_lawful()
    ensures { DocumentsAreLawful }
{}

/// A law: facts over constants and plain terms, as databases stand for facts, are stood for by the database in which a
/// constant is its text and a plain term the unnamed value of its number. So what rules, queries and views say of the
/// facts, read over terms, they say of this database.
pub fn facts_stand_as_databases()
    ensures { FactsStand }
{}

/// A law: where memory is not wanting, files give one list of facts or one first fault, the answers of a query and of a
/// union, a judgement of views and a filled file are one, and an audit of files comes to one end.
pub fn outcomes_are_one()
    ensures facts { FactsAreOne }
    ensures faults { FaultsAreOne }
    ensures readable { ReadableHaveNone }
    ensures answers { AnswersAreOne }
    ensures unions { UnionAnswersAreOne }
    ensures judgements { JudgementsAreOne }
    ensures fills { FillsAreOne }
    ensures audits { AuditsAreOne }
{
    rising_rows_are_one();
    databases_stand_for_facts();
}

/// A law: a query has the same answers of texts over the facts of all files as over those of some of them, among which is
/// the file of each dataset of which the query names a relation, although nodes have other numbers there; and where it has
/// no other answers over the facts of all, it has none over the others.
pub fn answers_rest_on_their_datasets()
    ensures { AnswersRestOnDatasets }
{}

/// A law: a query has the same answers over some of the facts, among which are those to which an atom of its body can go,
/// as over all facts.
pub fn answers_rest_on_wanted_facts()
    ensures { AnswersRestOnWantedFacts }
{}

/// A law: an audit of fragments' rows is one of the files of which they are the rows.
pub fn audits_are_over_files()
    ensures { AuditsAreOverFiles }
{}
