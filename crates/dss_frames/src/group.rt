use crate::format::Format;

/// What stands before the contents of a DSS in a group: three bytes of their length, the format byte
/// and the correlator.
const HEADER_BYTES: usize = 6;

/// One DSS of a command, with the contents of its continuations joined on.
#[derive(Clone, Copy)]
pub struct Dss<'a> {
    pub format: Format,
    pub correlator: u16,
    pub contents: &'a [u8],
}

/// One whole command: a request DSS and its object DSSs, lying in the reader's buffer.
#[derive(Clone, Copy)]
pub struct Group<'a> {
    pub(crate) text: &'a [u8],
}

impl<'a> Group<'a> {
    ghost use Rattle.std.specs.Prelude.{◌≡◌, ◌↔◌, [], ◌∷◌, IsTrue, MatchOption, slice_get, length};
    ghost use Rattle.std.specs.Option.{option_map};
    ghost use Rattle.dss_frames.specs.Group.{command_of, dss_of};

    /// The DSS at a place of the command, the request being the first; none past the last.
    pub fn dss(&self, i: usize) -> Option<Dss<'a>>
        ensures { option_map dss_of result ≡ slice_get (command_of self.now) i }
    {
        let text: &'a [u8] = self.text;
        let mut at = 0;
        'walking: for _ in 0..i {
            let Some(dss) = dss_at(text, at) else {
                return None;
            };
            at += HEADER_BYTES + dss.contents.len();
        }
        dss_at(text, at)
    }

    /// The first DSS and those behind it; none where no DSS is left. So a walk over the command is
    /// linear.
    #[inline(always)]
    pub fn split_first(&self) -> Option<(Dss<'a>, Group<'a>)>
        ensures { MatchOption result (command_of self.now ≡ []) (λ x. command_of self.now ≡ dss_of x.0 ∷ command_of x.1) }
    {
        let text: &'a [u8] = self.text;
        let Some(dss) = dss_at(text, 0) else {
            return None;
        };
        let behind = HEADER_BYTES + dss.contents.len();
        Some((
            dss,
            Group {
                text: &text[behind..],
            },
        ))
    }

    /// Whether no DSS is left.
    #[inline(always)]
    pub fn is_empty(&self) -> bool
        ensures { IsTrue result ↔ (command_of self.now ≡ []) }
    {
        self.split_first().is_none()
    }

    /// How many DSSs the command has.
    pub fn count(&self) -> usize
        ensures { result ≡ length (command_of self.now) }
    {
        let mut at = 0;
        let mut count = 0;
        'counting: while let Some(dss) = dss_at(self.text, at) {
            at += HEADER_BYTES + dss.contents.len();
            count += 1;
        }
        count
    }
}

ghost use Rattle.std.specs.Prelude.{◌≡◌, ◌≤◌, ◌+◌, drop, length, IfSome};
ghost use Rattle.std.specs.Option.{option_map};
ghost use Rattle.dss_frames.specs.Group.{dss_of, first_dss};

/// The DSS that lies at a place of a group's text.
#[inline(always)]
fn dss_at(text: &[u8], at: usize) -> Option<Dss<'_>>
    requires { at ≤ length text.now }
    ensures value { option_map dss_of result ≡ first_dss (drop at text.now) }
    ensures within { IfSome result (λ dss. at + 6 + length dss.contents.now ≤ length text.now) }
{
    let [high, middle, low, format, c, d, rest @ ..] = &text[at..] else {
        return None;
    };
    let count = u32::from_be_bytes([0, *high, *middle, *low]) as usize;
    Some(Dss {
        format: Format { byte: *format },
        correlator: u16::from_be_bytes([*c, *d]),
        contents: &rest[..count.min(rest.len())],
    })
}
