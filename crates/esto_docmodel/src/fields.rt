//! Lists of fields, in rising order of their names.
ghost use Rattle.std.specs.Prelude.{◌≡◌, [], ◌∷◌, ◌++◌, ◌<◌, length, slice_get, OnOk, OnErr};
ghost use Rattle.esto_docmodel.specs.Names.{Rise};

use crate::field::FieldOf;
use esto_term::{List, OutOfMemory, Replicate};
use std::alloc::Global;
use std::marker::Model;

/// Fields whose names rise strictly in order of bytes, which contracts see as the list of them.
#[derive(Drop)]
pub struct Fields<T> {
    fields: List<FieldOf<T>>,
}

impl<T> Model for Fields<T> {
    ghost use Rattle.std.specs.Prelude.{List};
    ghost use Rattle.std.specs.Coded.{coded_list};
    ghost use Rattle.esto_docmodel.specs.Names.{Rise, field_code};
    ghost use Rattle.esto_docmodel.specs.declared.field.FieldOf.{FieldOf};

    ghost Value = { List (FieldOf T) };

    ghost coded = { coded_list (field_code T.code) };

    ghost view = { λ it. it.fields };

    ghost invariant = { λ it. Rise it.fields };
}

impl<T> Fields<T> {
    /// No fields, which take no memory.
    pub fn new(alloc: Global) -> Fields<T>
        ensures { result ≡ [] }
    {
        Fields {
            fields: List::new(alloc),
        }
    }

    /// How many fields there are.
    pub fn len(&self) -> usize
        ensures { result ≡ length self.now }
    {
        self.fields.len()
    }

    /// The field at a place, counted from 0.
    pub fn item(&self, at: usize) -> &FieldOf<T>
        requires { at < length self.now }
        ensures { slice_get self.now at ≡ Some result.now }
    {
        self.fields.item(at)
    }

    /// All fields, in order.
    pub fn items(&self) -> &[FieldOf<T>]
        ensures value { result.now ≡ self.now }
        ensures rise { Rise result.now }
    {
        self.fields.items()
    }
}

impl<T: Drop> Fields<T> {
    /// Puts a field at the end, whose name is greater than those before.
    pub fn push(&mut self, field: FieldOf<T>) -> Result<(), OutOfMemory>
        requires { Rise (self.old ++ field ∷ []) }
        ensures ok { OnOk result (self.new ≡ self.old ++ field ∷ []) }
        ensures err { OnErr result (self.new ≡ self.old) }
    {
        self.fields.push(field)
    }
}

impl<T: Replicate + Drop> Replicate for Fields<T> {
    fn copy(&self, alloc: Global) -> Result<Fields<T>, OutOfMemory> {
        let fields = self.fields.copy(alloc)?;
        Ok(Fields { fields })
    }
}
