//! The objects that a source is cut into, one after the other.

ghost use Rattle.std.specs.Prelude.{◌≡◌, ◌≤◌, length};

use crate::fault::ObjFault;
use crate::object::Object;

/// A walk over the objects that a source is cut into, from left to right: each object with its place
/// in the source, and then the end, or the first fault by place and nothing after it. Allocates
/// nothing.
#[derive(Clone, Copy, Debug)]
pub struct Parts<'a> {
    source: &'a [u8],
    at: usize,
    ghost inside: { at ≤ length source.now },
}

impl<'a> Parts<'a> {
    ghost use Rattle.ddm_objects.specs.Source.{rest_of, source_of};

    // The walk over a whole source.
    pub(crate) fn over(source: &'a [u8]) -> Parts<'a>
        ensures source { source_of result ≡ source.now }
        ensures rest { rest_of result ≡ source.now }
    {
        Parts { source, at: 0 }
    }
}

impl<'a> Iterator for Parts<'a> {
    ghost use Rattle.std.specs.Prelude.{length};
    ghost use Rattle.std.specs.Iterator.{at_most};
    ghost use Rattle.ddm_objects.specs.Source.{Steps, rest_of};

    type Item = Result<Object<'a>, ObjFault>;

    ghost next_gives = { Steps };

    ghost remaining = { λ p. at_most (length (rest_of p)) };

    fn next(&mut self) -> Option<Result<Object<'a>, ObjFault>> {
        let source: &'a [u8] = self.source;
        let left = &source[self.at..];
        if left.is_empty() {
            return None;
        }
        match Object::parse(left) {
            Ok((object, _)) => {
                let at = self.at + object.at;
                self.at = at + object.value.len();
                Some(Ok(Object {
                    code: object.code,
                    at,
                    value: object.value,
                }))
            }
            Err(fault) => {
                self.at = source.len();
                Some(Err(fault))
            }
        }
    }
}
