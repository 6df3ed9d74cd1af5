ghost use Rattle.std.specs.Prelude.{◌≡◌, ◌≢◌, ◌≤◌};
ghost use Rattle.dss_frames.specs.Judging.{judged, after_segment, IsWithinLimit};
ghost use Rattle.drda_words.specs.Number.{word};
ghost use Rattle.dss_frames.specs.Length.{is_continued, segment_length};
ghost use Rattle.dss_frames.specs.Fault.{header_fault, continuation_fault};
ghost use Rattle.dss_frames.specs.Command.{turn_after, is_due};

use crate::fault::{FrameFault, SyntaxCode};
use crate::format::Format;
use crate::progress::Expected;
use crate::turn::Turn;

/// The most bytes that a DSS and its continuations may declare, their headers counted.
const MAX_DSS_BYTES: usize = 1_048_576;

/// The length of a segment, its own header counted.
#[inline(always)]
pub(crate) fn segment_length(high: u8, low: u8) -> usize
    ensures { result ≡ segment_length high low }
{
    let word = u16::from_be_bytes([high, low]);
    (word % 32768) as usize
}

/// Whether a continuation follows the segment.
#[inline(always)]
pub(crate) fn is_continued(high: u8, low: u8) -> bool
    ensures { result ≡ is_continued high low }
{
    u16::from_be_bytes([high, low]) >= 32768
}

#[inline(always)]
fn turn_after(format: Format, correlator: u16) -> Turn
    ensures { result ≡ turn_after format.byte correlator }
{
    if format.has_objects() {
        Turn::Object(correlator)
    } else {
        Turn::Nothing
    }
}

#[inline(always)]
fn is_due(turn: Turn, format: Format, correlator: u16) -> bool
    ensures { result ≡ is_due turn format.byte correlator }
{
    match turn {
        Turn::Request => format.byte & 0x0F == 1,
        Turn::Object(expected) => format.byte & 0x0F == 3 && correlator == expected,
        Turn::Nothing => false,
    }
}

#[inline(always)]
fn header_fault(
    turn: Turn,
    high: u8,
    low: u8,
    mark: u8,
    format: Format,
    correlator: u16,
) -> Option<SyntaxCode>
    ensures { result ≡ header_fault turn high low mark format.byte correlator }
{
    if segment_length(high, low) < 6 {
        Some(SyntaxCode::HeaderTooShort)
    } else if mark != 0xD0 {
        Some(SyntaxCode::MarkNotD0)
    } else if !format.is_supported() {
        Some(SyntaxCode::FormatNotSupported)
    } else if !format.is_paired() {
        Some(SyntaxCode::SameCorrelatorUnchained)
    } else if !is_due(turn, format, correlator) {
        Some(SyntaxCode::WrongTurn)
    } else {
        None
    }
}

fn continuation_fault(declared: usize, high: u8, low: u8) -> Option<SyntaxCode>
    requires { declared ≤ 1048576 }
    ensures { result ≡ continuation_fault declared high low }
{
    let counted = segment_length(high, low);
    if declared + counted > MAX_DSS_BYTES {
        Some(SyntaxCode::TooLong)
    } else if counted < 3 {
        Some(SyntaxCode::ContinuationTooShort)
    } else {
        None
    }
}

#[inline(always)]
fn after_segment(more: bool, format: Format, correlator: u16, declared: usize) -> Expected
    ensures { result ≡ after_segment more format.byte correlator declared }
{
    if more {
        Expected::Continuation(format.byte, correlator, declared)
    } else {
        Expected::Header(turn_after(format, correlator))
    }
}

#[inline(always)]
fn judge_header(turn: Turn, bytes: &[u8]) -> Result<Option<(Expected, usize)>, FrameFault>
    requires { turn ≢ Turn.Nothing }
    ensures { result ≡ judged (Expected.Header turn) bytes.now }
{
    let [high, low, mark, format, c, d, ..] = bytes else {
        return Ok(None);
    };
    let format = Format { byte: *format };
    let correlator = u16::from_be_bytes([*c, *d]);
    if let Some(code) = header_fault(turn, *high, *low, *mark, format, correlator) {
        return Err(FrameFault { code, correlator });
    }
    let size = segment_length(*high, *low);
    let next = after_segment(is_continued(*high, *low), format, correlator, size);
    Ok(Some((next, size)))
}

fn judge_continuation(
    format: Format,
    correlator: u16,
    declared: usize,
    bytes: &[u8],
) -> Result<Option<(Expected, usize)>, FrameFault>
    requires { declared ≤ 1048576 }
    ensures { result ≡ judged (Expected.Continuation format.byte correlator declared) bytes.now }
{
    let [high, low, ..] = bytes else {
        return Ok(None);
    };
    if let Some(code) = continuation_fault(declared, *high, *low) {
        return Err(FrameFault { code, correlator });
    }
    let size = segment_length(*high, *low);
    let next = after_segment(
        is_continued(*high, *low),
        format,
        correlator,
        declared + size,
    );
    Ok(Some((next, size)))
}

/// Judges the header in front as soon as it has come: what is expected behind its segment, and how
/// long the segment is.
#[inline(always)]
pub(crate) fn judge(
    expected: Expected,
    bytes: &[u8],
) -> Result<Option<(Expected, usize)>, FrameFault>
    requires { IsWithinLimit expected }
    ensures { result ≡ judged expected bytes.now }
{
    match expected {
        Expected::Header(Turn::Nothing) => Ok(None),
        Expected::Header(turn) => judge_header(turn, bytes),
        Expected::Continuation(format, correlator, declared) => {
            judge_continuation(Format { byte: format }, correlator, declared, bytes)
        }
    }
}
