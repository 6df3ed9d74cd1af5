ghost use Rattle.std.specs.Prelude.{◌≡◌, ◌≤◌, ◌<◌, ◌^◌, ◌+◌, ◌++◌, ◌∷◌, [], ℕ, List, length, take, drop, IsOk, IfOk, OnOk, OnErr, vec_len, vec_capacity};
ghost use Rattle.std.specs.Int.{to_be_bytes, w16};
ghost use Rattle.dss_frames.specs.Dss.{IsDss};
ghost use Rattle.dss_frames.specs.Length.{dss_limit};
ghost use Rattle.dss_frames.specs.Writing.{written, written_length, first_size, length_bytes, continuations, continued_length, unset};

use crate::format::Format;
use std::alloc::AllocError;

/// What a full segment holds, behind the six bytes of a header and the two of a continuation.
const FIRST_SIZE: u16 = 32_761;

const NEXT_SIZE: u16 = 32_765;

/// What stands in front of the contents of a DSS.
const HEADER_SIZE: usize = 6;

/// Appends a DSS: full segments, and the last one short. Where memory is refused nothing is appended;
/// where the list has room for `written_length`, that does not happen.
pub fn write_dss(
    out: &mut Vec<u8>,
    format: Format,
    correlator: u16,
    contents: &[u8],
) -> Result<(), AllocError>
    ensures ok { OnOk result (out.new.items ≡ out.old.items ++ written format.byte correlator contents.now) }
    ensures err { OnErr result (out.new.items ≡ out.old.items) }
    ensures room { vec_len out.old + written_length (length contents.now) ≤ vec_capacity out.old → IsOk result }
    ensures capacity { vec_capacity out.old ≤ vec_capacity out.new }
{
    out.reserve(written_length(contents.len()))?;
    append(out, &header(format, correlator, contents.len()));
    let (first, rest) = contents.split_at((FIRST_SIZE as usize).min(contents.len()));
    append(out, first);
    append_continuations(out, rest);
    Ok(())
}

/// A DSS whose contents are still to be appended.
#[derive(Clone, Copy, Debug)]
pub struct OpenedDss {
    /// How many bytes stand in front of it.
    pub at: usize,
}

/// Appends six bytes in which the header of a DSS will stand; what is appended from then on are its
/// contents, until it is closed. Where memory is refused, nothing is appended.
#[inline(always)]
pub fn open_dss(out: &mut Vec<u8>) -> Result<OpenedDss, AllocError>
    ensures ok { OnOk result (out.new.items ≡ out.old.items ++ unset) }
    ensures opened { IfOk result (λ dss. dss.at ≡ vec_len out.old) }
    ensures err { OnErr result (out.new.items ≡ out.old.items) }
    ensures capacity { vec_capacity out.old ≤ vec_capacity out.new }
{
    let at = out.len();
    out.extend_from_slice(&[0; HEADER_SIZE])?;
    Ok(OpenedDss { at })
}

/// Ends a DSS: what stands behind its six bytes becomes its contents. Contents that take more than one
/// segment are copied, which may want memory; where it is refused, the DSS is taken away.
#[inline(always)]
pub fn close_dss(
    out: &mut Vec<u8>,
    dss: OpenedDss,
    format: Format,
    correlator: u16,
) -> Result<(), AllocError>
    requires { dss.at + 6 ≤ vec_len out.old }
    ensures ok { OnOk result (out.new.items ≡ take dss.at out.old.items ++ written format.byte correlator (drop (dss.at + 6) out.old.items)) }
    ensures err { OnErr result (out.new.items ≡ take dss.at out.old.items) }
    ensures capacity { vec_capacity out.old ≤ vec_capacity out.new }
{
    let count = out.len() - (dss.at + HEADER_SIZE);
    if count > FIRST_SIZE as usize {
        return close_long(out, dss, format, correlator);
    }
    set_header(out, dss, &header(format, correlator, count));
    Ok(())
}

// Writes the header of a DSS that was opened.
#[inline(always)]
fn set_header(out: &mut Vec<u8>, dss: OpenedDss, header: &[u8; HEADER_SIZE])
    requires { dss.at + 6 ≤ vec_len out.old }
    ensures items { out.new.items ≡ take dss.at out.old.items ++ header.now ++ drop (dss.at + 6) out.old.items }
    ensures capacity { vec_capacity out.old ≤ vec_capacity out.new }
{
    out[dss.at..dss.at + HEADER_SIZE].copy_from_slice(header);
}

// Writes a DSS of more than one segment anew.
#[inline(never)]
fn close_long(
    out: &mut Vec<u8>,
    dss: OpenedDss,
    format: Format,
    correlator: u16,
) -> Result<(), AllocError>
    requires { dss.at + 6 ≤ vec_len out.old }
    ensures ok { OnOk result (out.new.items ≡ take dss.at out.old.items ++ written format.byte correlator (drop (dss.at + 6) out.old.items)) }
    ensures err { OnErr result (out.new.items ≡ take dss.at out.old.items) }
    ensures capacity { vec_capacity out.old ≤ vec_capacity out.new }
{
    let contents = out.split_off(dss.at + HEADER_SIZE);
    out.truncate(dss.at);
    write_dss(out, format, correlator, &contents?)
}

/// How many bytes a DSS with so many bytes of contents takes.
#[inline(always)]
pub fn written_length(count: usize) -> usize
    requires { written_length count < 2 ^ 64 }
    ensures { result ≡ written_length count }
{
    if count <= FIRST_SIZE as usize {
        return 6 + count;
    }
    let others = count.saturating_sub(FIRST_SIZE as usize);
    6 + count + 2 * others.div_ceil(NEXT_SIZE as usize)
}

/// The header of a DSS with so many bytes of contents.
#[inline(always)]
fn header(format: Format, correlator: u16, count: usize) -> [u8; 6]
    ensures { result ≡ length_bytes 6 first_size count ++ (0xD0 ∷ format.byte ∷ []) ++ to_be_bytes w16 correlator }
{
    let [high, low] = length_bytes(6, FIRST_SIZE, count);
    let [c, d] = correlator.to_be_bytes();
    [high, low, 0xD0, format.byte, c, d]
}

/// The length of a segment that holds the first bytes of some, at most so many.
#[inline(always)]
fn length_bytes(header: u16, size: u16, count: usize) -> [u8; 2]
    requires { header + size < 32768 }
    ensures { result ≡ length_bytes header size count }
{
    if count > size as usize {
        (32_768 + (header + size)).to_be_bytes()
    } else {
        (header + count as u16).to_be_bytes()
    }
}

/// Appends bytes for which there is room.
#[inline(always)]
fn append(out: &mut Vec<u8>, bytes: &[u8])
    requires { vec_len out.old + length bytes.now ≤ vec_capacity out.old }
    ensures items { out.new.items ≡ out.old.items ++ bytes.now }
    ensures len { vec_len out.new ≡ vec_len out.old + length bytes.now }
    ensures capacity { vec_capacity out.old ≤ vec_capacity out.new }
{
    let _ = out.extend_from_slice(bytes);
}

/// Appends the continuations that hold these bytes, for which there is room.
fn append_continuations(out: &mut Vec<u8>, bytes: &[u8])
    requires { vec_len out.old + continued_length (length bytes.now) ≤ vec_capacity out.old }
    ensures items { out.new.items ≡ out.old.items ++ continuations (length bytes.now) bytes.now }
    ensures capacity { vec_capacity out.old ≤ vec_capacity out.new }
{
    let mut rest = bytes;
    'writing: while !rest.is_empty() {
        append(out, &length_bytes(2, NEXT_SIZE, rest.len()));
        let (piece, others) = rest.split_at((NEXT_SIZE as usize).min(rest.len()));
        append(out, piece);
        rest = others;
    }
}

/// What is written is a DSS of exactly this, and has exactly that length.
pub fn written_dss_is_read()
    ensures length { (format correlator : ℕ) (contents : List ℕ) → length (written format correlator contents) ≡ written_length (length contents) }
    ensures dss { (format correlator : ℕ) (contents : List ℕ) → correlator < 2 ^ 16 → written_length (length contents) ≤ dss_limit → IsDss (written format correlator contents) (record { format = format; correlator = correlator; contents = contents }) }
{}
