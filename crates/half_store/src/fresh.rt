//! The bytes of a store's pages.
ghost use Rattle.std.specs.Prelude.{◌≡◌, ◌-◌, ◌≤◌, ◌++◌, OnOk, IfOk, length};
ghost use Rattle.drda_disk.specs.Layout.{page_bytes};
ghost use Rattle.half_store.specs.Fresh.{zeros, head_bytes, header_bytes, front_bytes};

use crate::head::{LAYOUT, MARK_BYTES};
use crate::{Header, Layout};
use drda_disk::{OPEN_GATE, PAGE_BYTES};
use std::alloc::{AllocError, Global};

/// The header of a store's first image.
const FIRST_HEADER: Header = Header {
    generation: 1,
    pages: 0,
    first_catalogue: 0,
    catalogue_pages: 0,
    layout: Layout::Two,
};

/// The rest of the head's page behind the mark.
const HEAD_PAGE_BYTES: usize = PAGE_BYTES - MARK_BYTES;

/// Puts the head of a store of this size and name behind other bytes, but for its mark. Where memory is
/// refused, some of it may stand there.
pub fn push_head(bytes: &mut Vec<u8>, size: usize, name: &str) -> Result<(), AllocError>
    requires { length name.now ≤ 18 }
    ensures { OnOk result (bytes.new.items ≡ bytes.old.items ++ head_bytes size name.now) }
{
    bytes.extend_from_slice(&LAYOUT.to_be_bytes())?;
    bytes.extend_from_slice(&(size as u64).to_be_bytes())?;
    bytes.push(name.len() as u8)?;
    bytes.extend_from_slice(name.as_bytes())?;
    Ok(())
}

/// Puts a header behind other bytes, but for its gate.
fn push_header(bytes: &mut Vec<u8>, header: Header) -> Result<(), AllocError>
    ensures { OnOk result (bytes.new.items ≡ bytes.old.items ++ header_bytes header) }
{
    bytes.extend_from_slice(&header.generation.to_be_bytes())?;
    bytes.extend_from_slice(&header.pages.to_be_bytes())?;
    bytes.extend_from_slice(&header.first_catalogue.to_be_bytes())?;
    bytes.extend_from_slice(&header.catalogue_pages.to_be_bytes())?;
    bytes.extend_from_slice(&header.layout.word().to_be_bytes())?;
    Ok(())
}

/// Fills up with zeros.
#[tactic(auto, unfolding(crate::specs::Fresh::zeros))]
fn pad(bytes: &mut Vec<u8>, to: usize) -> Result<(), AllocError>
    requires { length bytes.old.items ≤ to }
    ensures items { OnOk result (bytes.new.items ≡ bytes.old.items ++ zeros (to - length bytes.old.items)) }
    ensures len { OnOk result (length bytes.new.items ≡ to) }
{
    bytes.resize(to, 0)
}

/// A page of zeros.
pub(crate) fn blank_page(alloc: Global) -> Result<Vec<u8>, AllocError>
    ensures items { IfOk result (λ bytes. bytes.items ≡ zeros page_bytes) }
    ensures len { IfOk result (λ bytes. length bytes.items ≡ page_bytes) }
{
    let mut bytes = Vec::with_capacity(alloc, PAGE_BYTES)?;
    pad(&mut bytes, PAGE_BYTES)?;
    Ok(bytes)
}

/// The header page of a half behind its gate.
pub(crate) fn header_page(alloc: Global, header: Header) -> Result<Vec<u8>, AllocError>
    ensures items { IfOk result (λ bytes. bytes.items ≡ header_bytes header ++ zeros 8167) }
    ensures len { IfOk result (λ bytes. length bytes.items ≡ 8191) }
{
    let mut bytes = Vec::with_capacity(alloc, PAGE_BYTES - 1)?;
    push_header(&mut bytes, header)?;
    pad(&mut bytes, PAGE_BYTES - 1)?;
    Ok(bytes)
}

/// A fresh store of this size behind its mark, up to the first gate of its journal: the rest of the
/// head's page, the first half's header page, and the closed gate.
pub(crate) fn fresh_front(alloc: Global, size: usize, name: &str) -> Result<Vec<u8>, AllocError>
    requires { length name.now ≤ 18 }
    ensures items { IfOk result (λ bytes. bytes.items ≡ front_bytes size name.now) }
    ensures len { IfOk result (λ bytes. length bytes.items ≡ 16377) }
{
    let mut bytes = Vec::with_capacity(alloc, HEAD_PAGE_BYTES + PAGE_BYTES + 1)?;
    push_head(&mut bytes, size, name)?;
    pad(&mut bytes, HEAD_PAGE_BYTES)?;
    bytes.push(OPEN_GATE)?;
    push_header(&mut bytes, FIRST_HEADER)?;
    pad(&mut bytes, HEAD_PAGE_BYTES + PAGE_BYTES + 1)?;
    Ok(bytes)
}
