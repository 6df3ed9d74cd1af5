//! Chains of commands, and the DSSs of replies.

ghost use Rattle.std.specs.Prelude.{◌≡◌, ◌≤◌, ◌+◌, ◌++◌, [], length, vec_capacity, vec_len};
ghost use Rattle.dss_frames.specs.Group.{command_of, dss_of};
ghost use Rattle.dss_frames.specs.Writing.{written, written_length};
ghost use Rattle.sqlam_replies.specs.Kind.{dss_type_of};
ghost use Rattle.command_kit.specs.Replies.{replies_in};
ghost use Rattle.command_kit.specs.Sizes.{written_lengths};
ghost use Rattle.conversation.specs.Exchange as spec;

use command_kit::ReplyList;
use dss_frames::{Dss, Format, Group, write_dss};
use session_commands::Session;
use sqlam_replies::ReplyKind;

/// The severity from which on a reply breaks its chain (SVRCOD).
const ERROR: u16 = 8;

/// The severity that ends the conversation.
const PERMANENT_DAMAGE: u16 = 64;

/// Where a command stands in its chain.
#[derive(Clone, Copy)]
pub(crate) struct Link {
    /// The format byte of its request.
    pub format: Format,
    pub correlator: u16,
    /// Another command of the chain follows.
    pub is_chained: bool,
}

/// Whether another command of the chain follows these object DSSs; `before` says what the DSS in front of
/// them says.
#[inline(always)]
fn goes_on(before: bool, objects: Group<'_>) -> bool
    ensures { result ≡ spec.goes_on_behind before (command_of objects.entry) }
{
    let mut is_chained = before;
    let mut left = objects;
    'dsss: while let Some((dss, more)) = left.split_first() {
        is_chained = dss.format.is_chained();
        left = more;
    }
    is_chained
}

/// Where a command stands in its chain that has this request and these object DSSs.
#[inline(always)]
pub(crate) fn link_of(request: Dss<'_>, objects: Group<'_>) -> Link
    ensures { result ≡ spec.link_of (dss_of request.entry) (command_of objects.entry) }
{
    Link {
        format: request.format,
        correlator: request.correlator,
        is_chained: goes_on(request.format.is_chained(), objects),
    }
}

#[inline(always)]
fn breaks(severity: u16, format: Format) -> bool
    ensures { result ≡ spec.breaks severity format.byte }
{
    severity >= PERMANENT_DAMAGE || severity >= ERROR && !format.continues_on_error()
}

/// How a conversation goes on behind replies of this severity.
#[inline(always)]
pub(crate) fn behind(session: Session, link: Link, severity: u16) -> Session
    ensures { result ≡ spec.behind session link severity }
{
    Session {
        is_broken: link.is_chained && breaks(severity, link.format),
        is_closed: session.is_closed || severity >= PERMANENT_DAMAGE,
        ..session
    }
}

/// The greatest severity of some replies.
pub(crate) fn worst(replies: ReplyList<'_>) -> u16
    ensures { result ≡ spec.worst (replies_in replies.entry) }
{
    let mut worst = 0;
    let mut left = replies;
    'replies: while let Some((reply, others)) = left.split_first() {
        worst = reply.severity.max(worst);
        left = others;
    }
    worst
}

/// The number of a reply's kind (DSS type).
#[inline(always)]
fn number_of(kind: ReplyKind) -> u8
    ensures number { result ≡ dss_type_of kind }
    ensures small { result ≤ 3 }
{
    match kind {
        ReplyKind::Message => 2,
        ReplyKind::Object => 3,
    }
}

/// The format of the last reply of a command.
#[inline(always)]
pub(crate) fn last_format(kind: ReplyKind, is_chained: bool) -> Format
    ensures { result.byte ≡ spec.chain_bits is_chained [] + dss_type_of kind }
{
    let number = number_of(kind);
    Format {
        byte: if is_chained { 0x40 + number } else { number },
    }
}

/// The format of a reply before these others of its command.
#[inline(always)]
fn format_before(others: ReplyList<'_>, kind: ReplyKind, is_chained: bool) -> Format
    ensures { result.byte ≡ spec.chain_bits is_chained (replies_in others.entry) + dss_type_of kind }
{
    match others.split_first() {
        Some(_) => Format {
            byte: 0x50 + number_of(kind),
        },
        None => last_format(kind, is_chained),
    }
}

/// Appends a DSS for which there is room.
fn append_dss(out: &mut Vec<u8>, format: Format, correlator: u16, contents: &[u8])
    requires { vec_len out.old + written_length (length contents.now) ≤ vec_capacity out.old }
    ensures items { out.new.items ≡ out.old.items ++ written format.byte correlator contents.now }
    ensures len { vec_len out.new ≡ vec_len out.old + written_length (length contents.now) }
    ensures capacity { vec_capacity out.old ≤ vec_capacity out.new }
{
    dss_frames::laws::written_dss_is_read();
    match write_dss(out, format, correlator, contents) {
        Ok(()) => {}
        Err(_) => unreachable!(),
    }
}

/// Appends the replies of a command, for which there is room.
pub(crate) fn append_replies(
    out: &mut Vec<u8>,
    correlator: u16,
    is_chained: bool,
    replies: ReplyList<'_>,
)
    requires { vec_len out.old + written_lengths (replies_in replies) ≤ vec_capacity out.old }
    ensures { out.new.items ≡ out.old.items ++ spec.in_dsss correlator is_chained (replies_in replies.entry) }
{
    let mut left = replies;
    'replies: while let Some((reply, others)) = left.split_first() {
        let format = format_before(others, reply.kind, is_chained);
        append_dss(out, format, correlator, reply.text);
        left = others;
    }
}
