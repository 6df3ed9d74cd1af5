//! The name of a section as a key. A list of bytes is hashed byte by byte; a name, of 64 bytes and more, in
//! one piece.

use indexmap::Equivalent;
use std::hash::{Hash, Hasher};
use std::marker::Model;

/// All bytes of a PKGNAMCSN.
#[derive(Drop)]
pub struct Name {
    bytes: Vec<u8>,
}

impl Model for Name {
    ghost use Rattle.std.specs.Prelude.{ℕ, List};

    ghost Value = { List ℕ };

    ghost view = { λ name. name.bytes.items };
}

impl Name {
    ghost use Rattle.std.specs.Prelude.{◌≡◌};

    pub(crate) fn new(bytes: Vec<u8>) -> Name
        ensures { result ≡ bytes.items }
    {
        Name { bytes }
    }

    pub(crate) fn as_slice(&self) -> &[u8]
        ensures { result.now ≡ self.now }
    {
        self.bytes.as_slice()
    }
}

ghost use Rattle.std.specs.Prelude.{◌∷◌, [], bytes_eq};
ghost use Rattle.std.proofs.Common.{ap};
ghost use Rattle.std.specs.Cmp.{on_equiv, on_per, partial_equiv_from_equiv};
ghost use Rattle.std.specs.Cmp.Lexicographic.{bytes_decides, nat_list_eq_equiv};

impl PartialEq for Name {
    ghost eq = { bytes_eq };

    ghost laws = { partial_equiv_from_equiv nat_list_eq_equiv };

    fn eq(&self, other: &Name) -> bool {
        self.as_slice() == other.as_slice()
    }
}

impl Eq for Name {
    ghost laws = { nat_list_eq_equiv };
}

impl Hash for Name {
    ghost hash_input = { λ name. name ∷ [] };

    ghost respects_eq = { λ x y same. ap (λ name. name ∷ []) ((bytes_decides x y).0 same) };

    fn hash<H: Hasher>(&self, state: &mut H) {
        state.write(self.as_slice());
    }
}

/// The bytes of a name that is looked up.
#[derive(Clone, Copy)]
pub(crate) struct Sought<'a> {
    pub(crate) bytes: &'a [u8],
}

impl PartialEq for Sought<'_> {
    ghost eq = { λ x y. bytes_eq x.bytes.now y.bytes.now };

    ghost laws = { on_per (λ sought. sought.bytes.now) (partial_equiv_from_equiv nat_list_eq_equiv) };

    fn eq(&self, other: &Self) -> bool {
        self.bytes == other.bytes
    }
}

impl Eq for Sought<'_> {
    ghost laws = { on_equiv (λ sought. sought.bytes.now) nat_list_eq_equiv };
}

impl Hash for Sought<'_> {
    ghost hash_input = { λ sought. sought.bytes.now ∷ [] };

    ghost respects_eq = { λ x y same. ap (λ name. name ∷ []) ((bytes_decides x.bytes.now y.bytes.now).0 same) };

    fn hash<H: Hasher>(&self, state: &mut H) {
        state.write(self.bytes);
    }
}

impl Equivalent<Name> for Sought<'_> {
    ghost equivalent = { λ sought name. bytes_eq sought.bytes.now name };

    ghost respects_hash = { λ sought name same. ap (λ n. n ∷ []) ((bytes_decides sought.bytes.now name).0 same) };

    ghost respects_eq = { λ sought x y. nat_list_eq_equiv.congr sought.bytes.now x y };

    fn equivalent(&self, name: &Name) -> bool {
        self.bytes == name.as_slice()
    }
}
