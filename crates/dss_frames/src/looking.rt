ghost use Rattle.std.specs.Prelude.{◌≡◌, ◌⊎◌, ◌≤◌, ◌+◌, ◌-◌, ◌++◌, max, length, take};
ghost use Rattle.dss_frames.specs.Fault.{IsUnfinished};
ghost use Rattle.dss_frames.specs.Lending.{GoesFar, IsWanted, KeepsToFirst};
ghost use Rattle.dss_frames.specs.Progress.{IsAt, Finds, header_length, found_at};

use crate::fault::FrameFault;
use crate::judging::judge;
use crate::progress::{Expected, Found, Progress};
use crate::turn::Turn;

#[inline(always)]
pub(crate) fn header_length(expected: Expected) -> usize
    ensures exact { result ≡ header_length expected }
    ensures small { result ≤ 6 }
{
    match expected {
        Expected::Header(Turn::Nothing) => 0,
        Expected::Header(_) => 6,
        Expected::Continuation(..) => 2,
    }
}

/// How many bytes more the next header takes, or the rest of the command; one at the least.
#[inline(always)]
fn missing(place: Progress, bytes: &[u8]) -> usize
    requires { place.at ≤ length bytes.now + 32767 }
    ensures { result ≡ max 1 (place.at + header_length place.expected - length bytes.now) }
{
    let until = place.at + header_length(place.expected);
    until.saturating_sub(bytes.len()).max(1)
}

/// Judges the headers that have come, from a place on.
#[inline(always)]
pub(crate) fn look(place: Progress, bytes: &[u8]) -> Result<Found, FrameFault>
    requires { IsAt bytes.now place }
    ensures { Finds bytes.now result }
{
    let mut place = place;
    'judging: while place.at <= bytes.len() {
        match judge(place.expected, &bytes[place.at..]) {
            Err(fault) => return Err(fault),
            Ok(None) => return Ok(found(place)),
            Ok(Some((expected, size))) => {
                place = Progress {
                    at: place.at + size,
                    expected,
                };
            }
        }
    }
    Ok(Found::Nothing(place))
}

#[inline(always)]
fn found(place: Progress) -> Found
    ensures { result ≡ found_at place }
{
    match place.expected {
        Expected::Header(Turn::Nothing) => Found::Command(place.at),
        _ => Found::Nothing(place),
    }
}

/// How many bytes at the least are missing behind those that have come until the next header, segment or
/// command can be judged: at least one.
#[inline(always)]
pub(crate) fn wanted(place: Progress, bytes: &[u8]) -> usize
    requires { IsAt bytes.now place }
    ensures some { 1 ≤ result }
    ensures exact { IsUnfinished bytes.now → IsWanted bytes.now result }
{
    match look(place, bytes) {
        Ok(Found::Nothing(place)) => missing(place, bytes),
        Ok(Found::Command(_)) => 1,
        Err(_) => 1,
    }
}

/// How many bytes in front of a piece belong to the command of which these bytes have come, and where
/// the next header stands behind them. A command that begins with the piece is judged there, once.
#[inline]
pub(crate) fn front_of(place: Progress, bytes: &[u8], piece: &[u8]) -> (usize, Progress)
    requires { IsAt bytes.now place }
    ensures within { result.0 ≤ length piece.now }
    ensures first { IsUnfinished bytes.now → KeepsToFirst bytes.now piece.now result.0 }
    ensures far { IsUnfinished bytes.now → GoesFar bytes.now piece.now result.0 }
    ensures place { IsAt (bytes.now ++ take result.0 piece.now) result.1 }
{
    if bytes.is_empty() {
        match look(place, piece) {
            Ok(Found::Command(size)) => return (size, behind_command(size)),
            Ok(Found::Nothing(place)) => return (piece.len(), place),
            Err(_) => {}
        }
    }
    (wanted(place, bytes).min(piece.len()), place)
}

/// The place behind a whole command of so many bytes.
#[inline(always)]
fn behind_command(size: usize) -> Progress
    ensures { result ≡ record { at = size; expected = Expected.Header Turn.Nothing } }
{
    Progress {
        at: size,
        expected: Expected::Header(Turn::Nothing),
    }
}
