//! The values of markers.

ghost use Rattle.std.specs.Prelude.{Some};
ghost use Rattle.command_kit.specs.Text.{row_of};
ghost use Rattle.command_kit.specs.Values.{GivesValues};

use fdoca::{Descriptor, DescriptorFault, Values, read_row};
use std::alloc::Global;

/// The values of a row, by the descriptor that comes with it (DRDA V5 volume 3, SQLDTA). `Malformed`
/// and `TooManyFields` come exactly where they give none.
pub fn read_values<'a>(
    alloc: Global,
    description: &[u8],
    row: &'a [u8],
) -> Result<Values<'a>, DescriptorFault>
    ensures { GivesValues (row_of (Some description.now) (Some row.now)) result }
{
    fdoca::laws::readings_are_found();
    let descriptor = Descriptor::parse(alloc, description)?;
    read_row(alloc, &descriptor, row)
}
