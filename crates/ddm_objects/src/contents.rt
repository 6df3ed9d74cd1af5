//! What a list of objects holds.

ghost use Rattle.std.specs.Prelude.{◌≡◌};
ghost use Rattle.ddm_objects.specs.Source.{Finds, rest_of, source_of};

use crate::fault::FindFault;
use crate::object::Object;
use crate::parts::Parts;

/// The objects that a source is cut into, from its beginning on. A source may be the data of a
/// container, or the contents of a DSS that holds a list of objects.
pub fn parts_of(source: &[u8]) -> Parts<'_>
    ensures source { source_of result ≡ source.now }
    ensures rest { rest_of result ≡ source.now }
{
    Parts::over(source)
}

/// The one object with a code point among those that a source is cut into, with its place there;
/// none where the code point does not occur. Allocates nothing.
///
/// A fault anywhere in the source comes first, the first one by place; a code point that occurs more
/// than once in a source without fault is `Twice`.
pub fn find_in(source: &[u8], code: u16) -> Result<Option<Object<'_>>, FindFault>
    ensures { Finds source.now code result }
{
    let mut found: Option<Object> = None;
    let mut twice = false;
    for part in parts_of(source) {
        match part {
            Ok(object) if object.code == code => {
                twice = found.is_some();
                found = Some(object);
            }
            Ok(_) => {}
            Err(fault) => return Err(FindFault::Fault(fault)),
        }
    }
    if twice {
        return Err(FindFault::Twice);
    }
    Ok(found)
}
