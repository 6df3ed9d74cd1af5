//! The form of pages, before any catalogue is read.
ghost use Rattle.std.specs.Prelude.{◌≡◌, ◌+◌, ◌*◌, ◌<◌, ◌≤◌, ◌^◌, true, false, IsTrue, Err, length};
ghost use Rattle.drda_words.specs.Place.{part};
ghost use Rattle.drda_disk.specs.Disk.{Stays};
ghost use Rattle.drda_disk.specs.Layout.{page_bytes};
ghost use Rattle.row_pages.specs.Laying.{HasSome};
ghost use Rattle.store_check.specs.Errors.{CountsCheck};
ghost use Rattle.store_check.specs.Formed.{IsFormed, TellsWhether};
ghost use Rattle.store_check.specs.Half.{HasForm, kind_of, page_at, pages_of};
ghost use Rattle.store_check.specs.Halving.{ChecksForm, TellsFirst, first_of};

use crate::CheckError;
use crate::half::pages_at;
use drda_disk::{Disk, PAGE_BYTES};
use half_store::Active;
use row_pages::{KeptPage, PageFault, PageKind, Pager};
use std::alloc::Global;

/// The kind of the page with a number.
fn kind_of(active: &Active, page: usize) -> PageKind
    ensures { result ≡ kind_of (pages_of active.now) page }
{
    if page < active.first_catalogue as usize {
        PageKind::Rows
    } else {
        PageKind::Catalogue
    }
}

/// The offset of the page with a number.
fn place_of(active: &Active, page: usize) -> usize
    requires pages { page_bytes * active.now.pages ≤ active.now.region.at }
    requires small { active.now.region.at ≤ 2 ^ 40 }
    requires page { page < active.now.pages }
    ensures { result ≡ page_at (pages_of active.now).at page }
{
    pages_at(active) + PAGE_BYTES * page
}

/// Whether a page is of a kind and has rows.
fn has_rows_of(page: &KeptPage, kind: PageKind) -> bool
    ensures so { result ≡ true → (page.now.kind ≡ kind) × HasSome page.now.rows }
    ensures other { result ≡ false → page.now.kind ≡ kind → HasSome page.now.rows → ⊥ }
{
    if page.page_ref().kind() != kind {
        return false;
    }
    page.len() > 0
}

/// Whether the page at an offset is one of a kind and has rows.
fn is_formed<D: Disk>(
    alloc: Global,
    pager: &mut Pager<D>,
    at: usize,
    kind: PageKind,
) -> Result<bool, CheckError>
    requires { at + page_bytes ≤ length (D.life pager.old).seen }
    ensures told { IsTrue D.is_modelled → TellsWhether (IsFormed kind (part (D.life pager.old).seen at page_bytes)) result }
    ensures stays { Stays (D.life pager.old) (D.life pager.new) }
    ensures cause { CountsCheck result (D.life pager.old).faults (D.life pager.new).faults }
{
    row_pages::laws::one_page();
    match pager.page(alloc, at) {
        Ok(page) => Ok(has_rows_of(page, kind)),
        Err(PageFault::Damaged) => Ok(false),
        Err(PageFault::NoMemory) => Err(CheckError::NoMemory),
        Err(PageFault::DeviceFailed) => Err(CheckError::DeviceFailed),
    }
}

/// Whether the page with a number has its form: it lies in front of the catalogue's end, has rows, and is
/// of its place's kind.
fn has_form<D: Disk>(
    alloc: Global,
    pager: &mut Pager<D>,
    active: &Active,
    page: usize,
) -> Result<bool, CheckError>
    requires pages { page_bytes * active.now.pages ≤ active.now.region.at }
    requires small { active.now.region.at ≤ 2 ^ 40 }
    requires inside { active.now.region.at ≤ length (D.life pager.old).seen }
    requires page { page < active.now.pages }
    ensures told { IsTrue D.is_modelled → TellsWhether (HasForm (D.life pager.old).seen (pages_of active.now) page) result }
    ensures stays { Stays (D.life pager.old) (D.life pager.new) }
    ensures cause { CountsCheck result (D.life pager.old).faults (D.life pager.new).faults }
{
    let at = place_of(active, page);
    if page < active.first_catalogue as usize + active.catalogue_pages as usize {
        is_formed(alloc, pager, at, kind_of(active, page))
    } else {
        Ok(false)
    }
}

/// Where the first page of a half without its form lies, if one is.
fn first_without_form<D: Disk>(
    alloc: Global,
    pager: &mut Pager<D>,
    active: &Active,
) -> Result<Option<usize>, CheckError>
    requires pages { page_bytes * active.now.pages ≤ active.now.region.at }
    requires small { active.now.region.at ≤ 2 ^ 40 }
    requires inside { active.now.region.at ≤ length (D.life pager.old).seen }
    ensures told { IsTrue D.is_modelled → ChecksForm (D.life pager.old).seen (pages_of active.now) result }
    ensures stays { Stays (D.life pager.old) (D.life pager.new) }
    ensures cause { CountsCheck result (D.life pager.old).faults (D.life pager.new).faults }
{
    for page in 0..active.pages as usize {
        if !has_form(alloc, pager, active, page)? {
            return Ok(Some(place_of(active, page)));
        }
    }
    Ok(None)
}

/// The damage at the first of two offsets, if there is one, else at the other.
fn first_of(first: Option<usize>, found: usize) -> CheckError
    ensures { result ≡ first_of first found }
{
    match first {
        Some(at) => CheckError::Damaged { at },
        None => CheckError::Damaged { at: found },
    }
}

/// The damage that is told of a half where some was found at an offset in what its pages say: that of
/// the first page without its form, if one is.
pub(crate) fn first_damage<D: Disk>(
    alloc: Global,
    pager: &mut Pager<D>,
    active: &Active,
    found: usize,
) -> CheckError
    requires pages { page_bytes * active.now.pages ≤ active.now.region.at }
    requires small { active.now.region.at ≤ 2 ^ 40 }
    requires inside { active.now.region.at ≤ length (D.life pager.old).seen }
    ensures told { IsTrue D.is_modelled → TellsFirst (D.life pager.old).seen (pages_of active.now) found result }
    ensures stays { Stays (D.life pager.old) (D.life pager.new) }
    ensures cause { CountsCheck {T = Unit {0}} (Err result) (D.life pager.old).faults (D.life pager.new).faults }
{
    match first_without_form(alloc, pager, active) {
        Ok(first) => first_of(first, found),
        Err(error) => error,
    }
}
