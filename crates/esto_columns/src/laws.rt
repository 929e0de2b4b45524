//! Laws of codes.
ghost use Rattle.std.specs.Prelude.{ℕ, List};
ghost use Rattle.esto_columns.specs.Interned.{AreCodedRows, Grows};

/// A law: rows that are coded stay coded where texts come after the old ones.
pub fn coded_rows_stay_coded()
    ensures { (old new coded : List (List ℕ)) (rows : List (List (List ℕ))) → Grows old new
        → AreCodedRows old coded rows → AreCodedRows new coded rows }
{}
