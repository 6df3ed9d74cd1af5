//! How long the texts of replies are, so that a caller makes room for them once.

ghost use Rattle.std.specs.Prelude.{◌≡◌, ◌≤◌, ℕ, ℤ, Bool, List, length, true};
ghost use Rattle.std.specs.List.{list_all};
ghost use Rattle.row_values.specs.Column.{Column};
ghost use Rattle.sqlam_replies.specs.Message.{has_short_values, message_of, message_text};
ghost use Rattle.sqlam_replies.specs.Sqlcard.{null_sqlcard, sqlcard};
ghost use Rattle.sqlam_replies.specs.Sqldard.{are_described, sqldard};
ghost use Rattle.sqlam_replies.specs.declared.message.ReplyMessage.{ReplyMessage};

/// How many bytes an SQLCARD has.
pub const SQLCARD_LENGTH: usize = 65;

/// How many bytes the SQLCARD has that reports nothing.
pub const NULL_SQLCARD_LENGTH: usize = 5;

/// The most bytes that an SQLDARD has.
pub const MAX_SQLDARD_LENGTH: usize = 8_072;

/// The most bytes that a reply message has whose name of a database and of a section, where it has them,
/// are no longer than the name of a section can be, 791 bytes.
pub const MAX_MESSAGE_LENGTH: usize = 2_395;

/// The texts have the lengths that these constants say, or at most those.
pub fn texts_have_lengths()
    ensures sqlcard { (code : ℤ) (state : List ℕ) (count : ℕ) → length state ≡ 5 → length (sqlcard code state count) ≡ 65 }
    ensures null { length null_sqlcard ≡ 5 }
    ensures sqldard { (unicode : Bool) (columns : List Column) → are_described columns ≡ true → length (sqldard unicode columns) ≤ 8072 }
    ensures message { (message : ReplyMessage) → has_short_values message ≡ true → length (message_text (message_of message)) ≤ 2395 }
{}
