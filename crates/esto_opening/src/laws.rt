//! Laws of what is opened.
ghost use Rattle.esto_opening.specs.Alike.{CataloguesOpenAlike, QueriesOpenAlike, UnionsOpenAlike};
ghost use Rattle.esto_opening.specs.Unions.{OpenedFormUnions, QueriesOpenAlone, SaidUnionsOpen, UnionsOfOneAreQueries};

use esto_catalog::catalogues_are_determined;
use esto_mapping::catalogues_are_sound;
use esto_read::{
    readings_are_determined, union_readings_are_determined, unions_of_one_are_queries,
};

/// A law: where no fetch is at a fault, one file says one catalogue, up to what it means, and one query, or one union of
/// queries, over such catalogues.
pub fn openings_are_one()
    ensures catalogues { CataloguesOpenAlike }
    ensures queries { QueriesOpenAlike }
    ensures unions { UnionsOpenAlike }
{
    catalogues_are_sound();
    catalogues_are_determined();
    readings_are_determined();
    union_readings_are_determined();
}

/// A law: what is opened as a union has at least one query, and heads of one length; what files say as a union is opened.
/// A file is opened as the union of one query exactly where it is opened as that query, and then as no other, and it is not
/// refused.
pub fn opened_unions_are_queries()
    ensures union { OpenedFormUnions }
    ensures said { SaidUnionsOpen }
    ensures one { UnionsOfOneAreQueries }
    ensures alone { QueriesOpenAlone }
{
    catalogues_are_sound();
    union_readings_are_determined();
    unions_of_one_are_queries();
}
