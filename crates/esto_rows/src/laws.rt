//! Laws of rows of texts.
ghost use Rattle.esto_rows.specs.Lent.{RisingRowsAreOne};

/// A law: rows that rise are one list where they are the same rows, so a set of rows has one text.
pub fn rising_rows_are_one()
    ensures { RisingRowsAreOne }
{}
