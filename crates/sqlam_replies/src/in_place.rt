//! Reply messages that are made where no memory may be asked for.

ghost use Rattle.std.specs.Prelude.{◌≡◌};
ghost use Rattle.sqlam_replies.specs.Message.{message_of, message_text};
ghost use Rattle.sqlam_replies.specs.declared.message.ReplyMessage.TheVariants.{ResourceLimit, Syntax};

/// SYNTAXRM with this SYNERRCD, of severity ERROR. Takes no memory.
pub fn syntax_message(code: u8) -> [u8; 15]
    ensures { result ≡ message_text (message_of (Syntax code)) }
{
    [
        0x00, 0x0F, 0x12, 0x4C, 0x00, 0x06, 0x11, 0x49, 0x00, 0x08, 0x00, 0x05, 0x11, 0x4A, code,
    ]
}

/// RSCLMTRM, of severity ERROR. Takes no memory.
pub fn resource_limit() -> [u8; 10]
    ensures { result ≡ message_text (message_of ResourceLimit) }
{
    [0x00, 0x0A, 0x12, 0x33, 0x00, 0x06, 0x11, 0x49, 0x00, 0x08]
}
