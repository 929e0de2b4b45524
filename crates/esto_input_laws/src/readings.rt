//! Laws of readings.
ghost use Rattle.esto_input_laws.specs.ReadingLaws.{ReadingsAreTotal, UnionReadingsAreTotal, ConstraintReadingsAreTotal, LayoutReadingsAreTotal};
ghost use Rattle.esto_input_laws.specs.ReadingLaws.{ReadingIsAFunction, UnionReadingIsAFunction, ConstraintReadingIsAFunction};
ghost use Rattle.esto_input_laws.specs.ReadingLaws.{LayoutReadingIsAFunction};

use esto_read::{
    constraint_readings_are_determined, layout_readings_are_determined, readings_are_determined,
    union_readings_are_determined,
};

/// A law: over each vocabulary, whatever the bytes are, they have a reading or a first fault as a query or a view, as a union,
/// and as a constraint in each version. So they have as a layout, over whatever columns.
pub fn readings_are_total()
    ensures query { ReadingsAreTotal }
    ensures union { UnionReadingsAreTotal }
    ensures constraint { ConstraintReadingsAreTotal }
    ensures layout { LayoutReadingsAreTotal }
{}

/// A law: reading is a function. Over each vocabulary, whatever the bytes are, they have one answer as a query or a view, as a
/// union, as a constraint in each version, and over columns as a layout: a reading, of which all that is printed or asked is
/// one, or a first fault.
pub fn reading_is_a_function()
    ensures query { ReadingIsAFunction }
    ensures union { UnionReadingIsAFunction }
    ensures constraint { ConstraintReadingIsAFunction }
    ensures layout { LayoutReadingIsAFunction }
{
    readings_are_determined();
    union_readings_are_determined();
    constraint_readings_are_determined();
    layout_readings_are_determined();
}
