//! Replies where they lie.

use crate::head::Head;
use sqlam_replies::ReplyKind;

/// A reply where it lies.
#[derive(Clone, Copy)]
pub struct ReplyRef<'a> {
    /// The kind of its DSS.
    pub kind: ReplyKind,
    /// Its severity: 0 where it has none. From 8 on it breaks a chain.
    pub severity: u16,
    pub text: &'a [u8],
}

/// Replies in their order, where they lie.
#[derive(Clone, Copy)]
pub struct ReplyList<'a> {
    pub(crate) heads: &'a [Head],
    pub(crate) text: &'a [u8],
}

impl<'a> ReplyList<'a> {
    ghost use Rattle.std.specs.Prelude.{◌≡◌, [], ◌∷◌, MatchOption};
    ghost use Rattle.command_kit.specs.Replies.{replies_in, reply_at};

    /// The first reply and those behind it; none where no reply is left.
    #[inline(always)]
    pub fn split_first(&self) -> Option<(ReplyRef<'a>, ReplyList<'a>)>
        ensures { MatchOption result (replies_in self.now ≡ []) (λ x. replies_in self.now ≡ reply_at x.0 ∷ replies_in x.1) }
    {
        let [head, heads @ ..] = self.heads else {
            return None;
        };
        let (text, others) = self.text.split_at(head.length.min(self.text.len()));
        Some((
            ReplyRef {
                kind: head.kind,
                severity: head.severity,
                text,
            },
            ReplyList {
                heads,
                text: others,
            },
        ))
    }
}
