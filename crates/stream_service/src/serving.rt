//! A conversation over two halves of a stream.

ghost use Rattle.std.specs.Prelude.{◌≡◌, IfSome};
ghost use Rattle.conversation.specs.Held.{newly_held};
ghost use Rattle.conversation.specs.Attended.{attended_by};
ghost use Rattle.conversation.specs.Feeding.{IsBetweenCommands};
ghost use Rattle.counted_streams.specs.Counts.{counts, sink_of, source_of, write_faults_of};
ghost use Rattle.stream_service.specs.Serving.{AnswersPiece, Converses, CountsWriting, TellsFaults, Loses, Serves};

use crate::host::Host;
use command_kit::Ask;
use conversation::{Access, Budget, Front, Heard, feed_some};
use core_calls::CoreCall;
use counted_streams::{Reader, Writer};
use std::alloc::{AllocError, Global};
use std::io::{Read, Write};

/// The most bytes that are read at once.
const PIECE: usize = 65_536;

/// Answers of more bytes are written before the next command is done.
const LONG: usize = 65_536;

/// Room for answers of more bytes is given back once they are written. A block of 65,535 bytes, the longest that clients ask for by
/// themselves, has less: else each query would have new memory.
const ROOM_KEPT: usize = 262_144;

/// What is kept of a command that is not whole. Before a database is opened no command of use is longer than 64 KiB; then eight data
/// objects of 1 MiB each and their request are the most.
const KEPT: Budget = Budget {
    unopened: 65_536,
    opened: 9_437_184,
    cursor_bytes: usize::MAX,
};

/// So many reads are made at most.
const MOST_READS: u64 = 1 << 63;

/// How the service of a stream ended.
#[derive(Clone, Copy, Debug, PartialEq, Eq)]
pub enum Served {
    /// The stream ended, or the conversation was closed: all that it was answered is written.
    Done,
    /// Reading failed, or 2^63 reads were not enough.
    ReadFault,
    /// Writing failed.
    WriteFault,
    /// Memory was refused, or more of a command had come than is kept.
    NoMemory,
}

/// Serves a conversation over a stream whose halves are handed in. Its bytes are heard as they are read, as many at once as are there up to
/// 65,536, and what it is answered to them is written before the next are read, and before the next command where it is longer than 65,536
/// bytes; so it goes on until the stream ends or fails, the conversation is closed or memory is refused. Whatever ends it, the last call of
/// `asker` is that the conversation is lost: a unit of work that it left open ends without its changes. `front` begins anew then: the
/// memory of what came, in which a password may stand, is overwritten before it is given back.
///
/// No more than 64 KiB are kept of a command before a database is opened, and then 9 MiB: one that goes on past that ends
/// the service as refused memory does. `host` says how much open cursors may keep. Before a database is opened it is told of each read
/// that brought bytes, and shown how far the conversation has come before each single answer is written; then before as many as are
/// written at once.
///
/// `Done` comes only where the conversation was answered all of the input. An asker that can't go on is
/// answered for by AGNPRMRM, which closes the conversation, and so is `Done` too. What was heard was done,
/// and its answers are written: all of them on `ReadFault`; all but perhaps the last, which says that a
/// command found no memory, on `NoMemory`; a prefix of them on `WriteFault`.
pub fn serve<A: Ask, R: Read, W: Write, H: Host>(
    alloc: Global,
    front: &mut Front,
    reader: &mut Reader<R>,
    writer: &mut Writer<W>,
    asker: &mut A,
    host: &mut H,
) -> Served
    requires { IsBetweenCommands front.old }
    ensures serves { IfSome (R.remaining (source_of reader.old)) (λ input. Serves A.asks front.old.settings (attended_by front.old asker.old) input (W.contents (sink_of writer.old)) result (W.contents (sink_of writer.new)) asker.new) }
    ensures lost { (before : A) × Loses A.asks before asker.new }
    ensures forgets { front.new ≡ newly_held front.old.settings }
    ensures cause { TellsFaults result (counts reader.old writer.old) (counts reader.new writer.new) }
{
    front.keep_within(Budget {
        cursor_bytes: host.cursor_bytes(),
        ..KEPT
    });
    let served = converse(alloc, front, reader, writer, asker, host);
    let _ = asker.ask(&CoreCall::Lost);
    front.restart(alloc);
    served
}

// Until the stream ends or fails, the conversation is closed or memory is refused.
fn converse<A: Ask, R: Read, W: Write, H: Host>(
    alloc: Global,
    front: &mut Front,
    reader: &mut Reader<R>,
    writer: &mut Writer<W>,
    asker: &mut A,
    host: &mut H,
) -> Served
    requires { IsBetweenCommands front.old }
    ensures settings { front.new.settings ≡ front.old.settings }
    ensures converses { IfSome (R.remaining (source_of reader.old)) (λ input. Converses A.asks front.old.settings (attended_by front.old asker.old) input (W.contents (sink_of writer.old)) result (W.contents (sink_of writer.new)) (attended_by front.new asker.new)) }
    ensures cause { TellsFaults result (counts reader.old writer.old) (counts reader.new writer.new) }
{
    dss_frames::laws::stays_read();
    let Ok(mut buffer) = room_for_a_piece(alloc) else {
        return Served::NoMemory;
    };
    let mut replies = Vec::new(alloc);
    'talking: for _made in 0..MOST_READS {
        let count = match reader.read(&mut buffer) {
            Ok(0) => return Served::Done,
            Ok(count) => count,
            Err(_) => return Served::ReadFault,
        };
        greet(front.access(), host);
        let ended = answer_piece(
            alloc,
            front,
            asker,
            &buffer[..count],
            &mut replies,
            writer,
            host,
        );
        overwrite(&mut buffer, count);
        match ended {
            None => {}
            Some(served) => return served,
        }
    }
    Served::ReadFault
}

// Hears a piece, and writes the answers to it: whenever they are long, and at its end. So no more of them are gathered
// than is long, and what one command is answered. None where the conversation goes on.
fn answer_piece<A: Ask, W: Write, H: Host>(
    alloc: Global,
    front: &mut Front,
    asker: &mut A,
    piece: &[u8],
    replies: &mut Vec<u8>,
    writer: &mut Writer<W>,
    host: &mut H,
) -> Option<Served>
    requires settled { IsBetweenCommands front.old }
    requires empty { replies.old.items ≡ [] }
    ensures settled { IsBetweenCommands front.new }
    ensures settings { front.new.settings ≡ front.old.settings }
    ensures empty { result ≡ None → replies.new.items ≡ [] }
    ensures answers { AnswersPiece A.asks front.old.settings (attended_by front.old asker.old) piece.now (W.contents (sink_of writer.old)) result (W.contents (sink_of writer.new)) (attended_by front.new asker.new) }
    ensures faults { CountsWriting result (write_faults_of writer.old) (write_faults_of writer.new) }
{
    dss_frames::laws::stays_read();
    let mut taken = 0;
    'hearing: loop {
        let most = most_gathered(front.access());
        let part = feed_some(front, asker, &piece[taken..], most, replies);
        taken += part.taken;
        show(front.access(), replies, host);
        let Ok(()) = writer.write_whole(replies) else {
            return Some(Served::WriteFault);
        };
        empty(alloc, replies);
        match part.heard {
            Heard::Open => {
                if taken == piece.len() {
                    return None;
                }
            }
            Heard::Closed => return Some(Served::Done),
            Heard::NoMemory => return Some(Served::NoMemory),
        }
    }
}

ghost use Rattle.std.specs.Prelude.{◌≤◌, ◌++◌, [], None, IfOk, drop, length, replicate};

// So many bytes of answers are gathered before they are written. A conversation without a database is shown answer by answer.
fn most_gathered(access: Access) -> usize {
    if access.is_opened { LONG } else { 0 }
}

// Tells the host that bytes have come, where no database is open.
fn greet<H: Host>(access: Access, host: &mut H) {
    if !access.is_opened {
        host.came();
    }
}

// Shows the host how far a conversation has come, where it is answered something.
fn show<H: Host>(access: Access, replies: &Vec<u8>, host: &mut H) {
    if !replies.is_empty() {
        host.look(access);
    }
}

// Takes out what was written. Where it had much room that is given back: a conversation that asked for much and then says
// nothing holds no more than its buffers.
fn empty(alloc: Global, replies: &mut Vec<u8>)
    ensures { replies.new.items ≡ [] }
{
    if replies.capacity() > ROOM_KEPT {
        *replies = Vec::new(alloc);
    } else {
        replies.clear();
    }
}

// Overwrites so many bytes at the front, since a password may stand in what was heard.
#[inline(never)]
fn overwrite(bytes: &mut [u8], count: usize)
    requires { count ≤ length bytes.old }
    ensures { bytes.new ≡ replicate count 0 ++ drop count bytes.old }
{
    bytes[..count].fill(0);
}

// Room for the bytes of one read.
fn room_for_a_piece(alloc: Global) -> Result<Vec<u8>, AllocError>
    ensures { IfOk result (λ v. length v.items ≡ 65536) }
{
    vec![in alloc; 0u8; PIECE]
}
