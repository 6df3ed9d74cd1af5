//! An object where it lies.

ghost use Rattle.std.specs.Prelude.{◌≡◌, ◌+◌, ◌≤◌, ◌<◌, ◌++◌, List, length, take, drop, IfOk, IsOkAnd, Some, ℕ};
ghost use Rattle.drda_words.specs.Excuse.{Answers};
ghost use Rattle.ddm_objects.specs.Objects.{Obj, IsObject};
ghost use Rattle.ddm_objects.specs.Reading.{object_at, plain_at, extended4_at, extended6_at, extended8_at, value_at};
ghost use Rattle.ddm_objects.specs.Source.{view, LiesBefore, Finds, rest_of, source_of};

use crate::contents::{find_in, parts_of};
use crate::fault::{FindFault, ObjFault};
use crate::parts::Parts;

/// An object that lies in a source, a slice of bytes (DRDA V5 volume 3, OBJECT).
#[derive(Clone, Copy, Debug)]
pub struct Object<'a> {
    /// The code point, which says what the object is.
    pub code: u16,
    /// The place of the data in the source: how many bytes of it stand before them.
    pub at: usize,
    /// The data, without the length and the code point.
    pub value: &'a [u8],
}

impl<'a> Object<'a> {
    /// The object that a source begins with, and what follows it. Allocates nothing.
    ///
    /// A fault means that the source begins with no object, the empty source too. A length that can't
    /// be is told from its two bytes: without the high bit `LengthBelowFour`, with it `ExtendedLength`.
    /// Else the object runs `PastContainer`, that is past the end of the source.
    #[inline(always)]
    pub fn parse(source: &'a [u8]) -> Result<(Object<'a>, &'a [u8]), ObjFault>
        // What is taken from the front is an object.
        ensures found { IfOk result (λ x. (front : List ℕ) × IsObject front (view x.0) × (source.now ≡ front ++ x.1.now)) }

        // Where an object stands in front it is taken, so a fault means that none does.
        ensures only { (front rest : List ℕ) (o : Obj) → IsObject front o → source.now ≡ front ++ rest → IsOkAnd result (λ x. (view x.0 ≡ o) × (x.1.now ≡ rest)) }

        // Which fault it is.
        ensures exact { Answers (λ x. (view x.0, x.1.now)) Some result (object_at source.now) }
        ensures place { IfOk result (λ x. LiesBefore source.now x.0 x.1.now) }
        ensures shorter { IfOk result (λ x. length x.1.now < length source.now) }
    {
        object_of(source)
    }

    /// The objects that the data are cut into, from left to right; their places are places in the data.
    pub fn parts(&self) -> Parts<'a>
        ensures source { source_of result ≡ self.now.value.now }
        ensures rest { rest_of result ≡ self.now.value.now }
    {
        parts_of(self.value)
    }

    /// The one object with a code point among those that the data are cut into; its place is a place in
    /// the data. Refusals are those of `find_in`.
    pub fn find(&self, code: u16) -> Result<Option<Object<'a>>, FindFault>
        ensures { Finds self.now.value.now code result }
    {
        find_in(self.value, code)
    }
}

// The object whose data begin at a place and have a size, in what follows its heading.
#[inline(always)]
fn value_of(code: u16, at: usize, size: u64, bytes: &[u8]) -> Result<(Object<'_>, &[u8]), ObjFault>
    ensures exact { Answers (λ x. (view x.0, x.1.now)) Some result (value_at code size bytes.now) }
    ensures place { IfOk result (λ x. x.0.at ≡ at) }
    ensures stands { IfOk result (λ x. (length x.0.value.now ≤ length bytes.now) × (take (length x.0.value.now) bytes.now ≡ x.0.value.now)) }
    ensures follows { IfOk result (λ x. x.1.now ≡ drop (length x.0.value.now) bytes.now) }
{
    if (bytes.len() as u64) < size {
        return Err(ObjFault::PastContainer);
    }
    let (value, rest) = bytes.split_at(size as usize);
    Ok((Object { code, at, value }, rest))
}

#[inline(always)]
#[tactic(auto, unfolding(crate::specs::Reading::plain_at))]
fn plain_of(size: u16, source: &[u8]) -> Result<(Object<'_>, &[u8]), ObjFault>
    ensures exact { Answers (λ x. (view x.0, x.1.now)) Some result (plain_at size source.now) }
    ensures place { IfOk result (λ x. LiesBefore source.now x.0 x.1.now) }
    ensures shorter { IfOk result (λ x. length x.1.now < length source.now) }
{
    let [_, _, c, d, rest @ ..] = source else {
        return Err(ObjFault::PastContainer);
    };
    value_of(u16::from_be_bytes([*c, *d]), 4, size as u64, rest)
}

#[tactic(auto, unfolding(crate::specs::Reading::extended4_at))]
fn extended4_of(source: &[u8]) -> Result<(Object<'_>, &[u8]), ObjFault>
    ensures exact { Answers (λ x. (view x.0, x.1.now)) Some result (extended4_at source.now) }
    ensures place { IfOk result (λ x. LiesBefore source.now x.0 x.1.now) }
    ensures shorter { IfOk result (λ x. length x.1.now < length source.now) }
{
    let [_, _, c, d, e, f, g, h, rest @ ..] = source else {
        return Err(ObjFault::PastContainer);
    };
    let size = u64::from_be_bytes([0, 0, 0, 0, *e, *f, *g, *h]);
    value_of(u16::from_be_bytes([*c, *d]), 8, size, rest)
}

#[tactic(auto, unfolding(crate::specs::Reading::extended6_at))]
fn extended6_of(source: &[u8]) -> Result<(Object<'_>, &[u8]), ObjFault>
    ensures exact { Answers (λ x. (view x.0, x.1.now)) Some result (extended6_at source.now) }
    ensures place { IfOk result (λ x. LiesBefore source.now x.0 x.1.now) }
    ensures shorter { IfOk result (λ x. length x.1.now < length source.now) }
{
    let [_, _, c, d, e, f, g, h, i, j, rest @ ..] = source else {
        return Err(ObjFault::PastContainer);
    };
    let size = u64::from_be_bytes([0, 0, *e, *f, *g, *h, *i, *j]);
    value_of(u16::from_be_bytes([*c, *d]), 10, size, rest)
}

#[tactic(auto, unfolding(crate::specs::Reading::extended8_at))]
fn extended8_of(source: &[u8]) -> Result<(Object<'_>, &[u8]), ObjFault>
    ensures exact { Answers (λ x. (view x.0, x.1.now)) Some result (extended8_at source.now) }
    ensures place { IfOk result (λ x. LiesBefore source.now x.0 x.1.now) }
    ensures shorter { IfOk result (λ x. length x.1.now < length source.now) }
{
    let [_, _, c, d, e, f, g, h, i, j, k, l, rest @ ..] = source else {
        return Err(ObjFault::PastContainer);
    };
    let size = u64::from_be_bytes([*e, *f, *g, *h, *i, *j, *k, *l]);
    value_of(u16::from_be_bytes([*c, *d]), 12, size, rest)
}

#[inline(always)]
#[tactic(auto, unfolding(crate::specs::Reading::object_at))]
fn object_of(source: &[u8]) -> Result<(Object<'_>, &[u8]), ObjFault>
    ensures exact { Answers (λ x. (view x.0, x.1.now)) Some result (object_at source.now) }
    ensures place { IfOk result (λ x. LiesBefore source.now x.0 x.1.now) }
    ensures shorter { IfOk result (λ x. length x.1.now < length source.now) }
{
    let [a, b, ..] = source else {
        return Err(ObjFault::PastContainer);
    };
    let length = u16::from_be_bytes([*a, *b]);
    if length < 4 {
        return Err(ObjFault::LengthBelowFour);
    }
    if length < 0x8000 {
        return plain_of(length - 4, source);
    }
    match length {
        0x8008 => extended4_of(source),
        0x800A => extended6_of(source),
        0x800C => extended8_of(source),
        _ => Err(ObjFault::ExtendedLength),
    }
}
