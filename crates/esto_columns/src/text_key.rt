//! The key by which a text is looked up.
ghost use Rattle.std.specs.Cmp.Lexicographic.{bytes_decides, nat_list_eq_equiv};
ghost use Rattle.std.specs.Hash as fed;
ghost use Rattle.std.specs.Str.{bytes_eq};
ghost use Rattle.std.proofs.Common.{ap};

use indexmap::Equivalent;
use smallvec::SmallVec;

/// The key by which a text is looked up among texts whose short ones stand in their entries.
#[derive(Clone, Copy, PartialEq, Eq, Hash)]
pub(crate) struct TextKey<'a> {
    pub text: &'a [u8],
}

impl<'a, const N: usize> Equivalent<SmallVec<u8, N>> for TextKey<'a> {
    ghost equivalent = { λ q k. bytes_eq q.text.now k.items };

    ghost respects_hash = { λ q k h.
        ap (fed.slice fed.u8) ((bytes_decides q.text.now k.items).0 h) };

    ghost respects_eq = { λ q x y. nat_list_eq_equiv.congr q.text.now x.items y.items };

    fn equivalent(&self, key: &SmallVec<u8, N>) -> bool {
        self.text == key.as_slice()
    }
}
