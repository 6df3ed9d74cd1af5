//! The replies to a command.

use crate::head::Head;
use crate::reply_list::ReplyList;
use crate::reply_text::ReplyText;
use std::alloc::{AllocError, Global};
use std::marker::Model;

/// The longest memory for texts that is kept from command to command, in bytes. An OPNQRY makes room for 133,283,
/// and for more where its block may be larger than the longest row; so one query after another takes none. 64
/// conversations keep 12 MiB at most.
const MAX_KEPT_LENGTH: usize = 196_608;

/// The replies to a command, one behind another in one list of bytes: each is an object of the DDM architecture
/// that goes in a DSS of its own.
#[derive(Drop)]
pub struct Replies {
    alloc: Global,
    text: Vec<u8>,
    heads: Vec<Head>,
}

impl Model for Replies {
    ghost use Rattle.std.specs.Prelude.{◌≡◌, ◌-◌, length, vec_capacity, vec_len};
    ghost use Rattle.command_kit.specs.Replies.{Replies, lengths_of, replies_of};

    ghost Value = { Replies };

    ghost view = { λ r. record { list = replies_of r.heads.items r.text.items; text_room = vec_capacity r.text - vec_len r.text; count_room = vec_capacity r.heads - vec_len r.heads } };

    ghost invariant = { λ r. lengths_of r.heads.items ≡ length r.text.items };
}

impl Replies {
    ghost use Rattle.std.specs.Prelude.{◌≡◌, ◌≤◌, ◌+◌, ◌++◌, ◌∷◌, [], OnOk};
    ghost use Rattle.dss_frames.specs.Writing.{first_size, written_length};
    ghost use Rattle.command_kit.specs.Replies.{replies_in};
    ghost use Rattle.command_kit.specs.Sizes.{written_lengths};

    /// No replies. Takes no memory.
    pub fn new(alloc: Global) -> Replies
        ensures { result.list ≡ [] }
    {
        Replies {
            alloc,
            text: Vec::new(alloc),
            heads: Vec::new(alloc),
        }
    }

    /// Drops the replies, and keeps their memory for the next ones: of that for texts at most
    /// `MAX_KEPT_LENGTH` bytes, a longer one is given back.
    pub fn clear(&mut self)
        ensures { self.new.list ≡ [] }
    {
        self.heads.clear();
        if self.text.capacity() > MAX_KEPT_LENGTH {
            self.text = Vec::new(self.alloc);
        } else {
            self.text.clear();
        }
    }

    /// Makes room for so many more replies, and for so many bytes of their texts.
    pub fn reserve(&mut self, count: usize, bytes: usize) -> Result<(), AllocError>
        ensures list { self.new.list ≡ self.old.list }
        ensures text { OnOk result (bytes ≤ self.new.text_room) }
        ensures count { OnOk result (count ≤ self.new.count_room) }
    {
        self.text.reserve(bytes)?;
        self.heads.reserve(count)
    }

    /// Adds a reply, for which there is room; so the bytes of replies grow by at most those of the DSS of its
    /// longest text, which are six more than those where that goes in one segment. Takes no memory.
    pub fn add<T: ReplyText>(&mut self, reply: &T)
        requires can { T.can_write reply.now }
        requires text { T.most reply.now ≤ self.old.text_room }
        requires count { 1 ≤ self.old.count_room }
        ensures list { self.new.list ≡ self.old.list ++ T.reply reply.now ∷ [] }
        ensures text { self.old.text_room ≤ self.new.text_room + T.most reply.now }
        ensures count { self.old.count_room ≤ self.new.count_room + 1 }
        ensures size { written_lengths self.new.list ≤ written_lengths self.old.list + written_length (T.most reply.now) }
        ensures short { T.most reply.now ≤ first_size → written_lengths self.new.list ≤ written_lengths self.old.list + (6 + T.most reply.now) }
    {
        crate::laws::replies_add_up();
        let start = self.text.len();
        match reply.write(&mut self.text) {
            Ok(()) => {}
            Err(_) => unreachable!(),
        }
        let head = Head {
            kind: reply.kind(),
            severity: reply.severity(),
            length: self.text.len() - start,
        };
        match self.heads.push(head) {
            Ok(()) => {}
            Err(_) => unreachable!(),
        }
    }

    /// The replies, where they lie.
    #[inline(always)]
    pub fn as_list(&self) -> ReplyList<'_>
        ensures { replies_in result ≡ self.now.list }
    {
        ReplyList {
            heads: self.heads.as_slice(),
            text: self.text.as_slice(),
        }
    }
}
