//! Laws of the definitions. The functions do nothing: their contracts are the laws.

ghost use Rattle.fdoca.specs.Laws.{AreParametersOnce, DescribesOnce, DescriptionIsRead, DescriptorIsFound, FoundIsDescriptor, FoundIsRow, IsRowOnce, RowIsFound, SentIsRead};

/// A text describes one list of fields at most.
pub fn descriptors_have_one_reading()
    ensures { DescribesOnce }
{}

/// A text is, as a row of fields, one list of values at most; so a descriptor and a row have one
/// reading at most.
pub fn rows_have_one_reading()
    ensures row { IsRowOnce }
    ensures parameters { AreParametersOnce }
{}

/// What is a descriptor, or a row of it, the readers of the definitions find; and what they find is one.
pub fn readings_are_found()
    ensures descriptor { DescriptorIsFound }
    ensures described { FoundIsDescriptor }
    ensures row { RowIsFound }
    ensures values { FoundIsRow }
{}

/// What is written of an answer is read back: its description has the fields of the columns, and its
/// rows the values.
pub fn answers_are_read_back()
    ensures description { DescriptionIsRead }
    ensures row { SentIsRead }
{}
