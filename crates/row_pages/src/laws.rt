//! Laws of pages.

ghost use Rattle.row_pages.specs.Parsing.{OnePage};
ghost use Rattle.row_pages.specs.Laying.{Laying, OneLaying};

/// Bytes are one page at most.
pub fn one_page()
    ensures { OnePage }
{}

/// Rows that fit into pages one by one are laid into pages that hold them in their order, and none
/// of these pages could take the first row of the next one. No other pages are such.
pub fn one_laying()
    ensures laid { Laying }
    ensures only { OneLaying }
{}
