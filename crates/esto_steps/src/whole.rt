//! Fragments that are read as a whole.
ghost use Rattle.std.specs.Prelude.{◌≡◌, []};
ghost use Rattle.esto_columns.specs.Asked.{IsAllowed};

use esto_columns::{Fragment, Rows, StoredRows};

/// A fragment whose rows can be read where they stand, if it can be asked without inputs.
pub trait Whole: Fragment {
    /// All rows, with the indexes that they have.
    fn whole(&self) -> &Rows
        requires { IsAllowed (Self.shape self.now) [] }
        ensures { result.now ≡ record {
          arity = (Self.shape self.now).arity;
          rows = Self.rows self.now;
        } };
}

impl Whole for StoredRows {
    fn whole(&self) -> &Rows {
        &self.rows
    }
}
