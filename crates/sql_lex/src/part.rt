//! A part of a text.

ghost use Rattle.std.specs.Prelude.{◌≡◌, IfOk};
ghost use Rattle.sql_lex.specs.Part.{bytes_in};

use std::alloc::{AllocError, Global};
use std::marker::Model;

/// Where the bytes of a part lie.
#[derive(Drop)]
pub(crate) enum Bytes<'a> {
    /// In the text.
    Lent(&'a [u8]),
    /// In memory of the part's own.
    Kept(Vec<u8>),
}

/// A part of a text, which contracts see as its bytes. It borrows the text, or has a copy of the bytes.
#[derive(Drop)]
pub struct Part<'a> {
    bytes: Bytes<'a>,
}

impl<'a> Model for Part<'a> {
    ghost use Rattle.std.specs.Prelude.{List, ℕ};
    ghost use Rattle.std.specs.Coded.{coded_list, coded_ℕ};
    ghost use Rattle.sql_lex.specs.Part.{bytes_in};

    ghost Value = { List ℕ };

    ghost coded = { coded_list coded_ℕ };

    ghost view = { λ p. bytes_in p.bytes };
}

impl<'a> Part<'a> {
    /// The part that these bytes are.
    pub fn new(bytes: &'a [u8]) -> Part<'a>
        ensures { result ≡ bytes.now }
    {
        Part {
            bytes: Bytes::Lent(bytes),
        }
    }

    /// The bytes.
    pub fn bytes(&self) -> &[u8]
        ensures { result.now ≡ self.now }
    {
        match &self.bytes {
            Bytes::Lent(bytes) => bytes,
            Bytes::Kept(bytes) => bytes.as_slice(),
        }
    }

    /// The same part again, which borrows the text where this one does.
    pub fn again(&self, alloc: Global) -> Result<Part<'a>, AllocError>
        ensures { IfOk result (λ part. part ≡ self.now) }
    {
        match &self.bytes {
            Bytes::Lent(bytes) => Ok(Part::new(bytes)),
            Bytes::Kept(bytes) => Part::copied(alloc, bytes.as_slice()),
        }
    }

    /// The same part with a copy of the bytes, so that it borrows no text.
    pub fn copy<'c>(&self, alloc: Global) -> Result<Part<'c>, AllocError>
        ensures { IfOk result (λ part. part ≡ self.now) }
    {
        Part::copied(alloc, self.bytes())
    }

    // The part with a copy of these bytes.
    fn copied(alloc: Global, bytes: &[u8]) -> Result<Part<'a>, AllocError>
        ensures { IfOk result (λ part. part ≡ bytes.now) }
    {
        Ok(Part {
            bytes: Bytes::Kept(Vec::from_slice(alloc, bytes)?),
        })
    }
}
