//! A reply that can be written.

ghost use Rattle.std.specs.Prelude.{◌≡◌, ◌≤◌, ◌<◌, ◌+◌, ◌++◌, ℕ, OnErr, OnOk, length, vec_capacity, vec_len};
ghost use Rattle.sqlam_replies.specs.Kind.{dss_type_of};
ghost use Rattle.sqlam_replies.specs.Reply.{Reply};

use sqlam_replies::ReplyKind;
use std::alloc::AllocError;

/// A reply that can be written. Contracts know which reply it is by `reply`, how many bytes its text has at
/// most by `most`, and what it needs of its parts by `can_write`.
pub trait ReplyText {
    ghost reply: { Self → Reply };

    ghost most: { Self → ℕ };

    ghost can_write: { Self → Type 0 };

    /// The kind of its DSS.
    fn kind(&self) -> ReplyKind
        ensures { dss_type_of result ≡ (reply self.now).dss_type };

    /// Its severity: 0 where it has none. From 8 on it breaks a chain.
    fn severity(&self) -> u16
        ensures { result ≡ (reply self.now).severity };

    /// Appends its text. Memory is refused only where the list has no room for `most` bytes more.
    fn write(&self, out: &mut Vec<u8>) -> Result<(), AllocError>
        requires { can_write self.now }
        ensures ok { OnOk result (out.new.items ≡ out.old.items ++ (reply self.now).text) }
        ensures short { OnOk result (length (reply self.now).text ≤ most self.now) }
        ensures full { OnErr result (vec_capacity out.old < vec_len out.old + most self.now) }
        ensures capacity { vec_capacity out.old ≤ vec_capacity out.new };
}
