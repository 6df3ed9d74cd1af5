//! The program.

ghost use Rattle.std.specs.Prelude.{◌≡◌, ◌≢◌, ◌⊎◌, ℕ, [], Err, List, None, Some, map, string_bytes};
ghost use Rattle.std.specs.Io.KnownBytes.{Appends};
ghost use Rattle.counted_streams.specs.Counts.{counts, sink_of, source_of};
ghost use Rattle.command_line.specs.Job.{plain_job, said};
ghost use Rattle.drda_program.specs.Deciding.{DecidesFile};
ghost use Rattle.drda_program.specs.Program.{Does, Exits, Makes};
ghost use Rattle.drda_program.specs.Reporting.{fault_of_words};
ghost use Rattle.drda_server.specs.Serving.{seen, surroundings};

use crate::bad_arguments::tell_if_bad;
use crate::deciding::decide_on;
use crate::logins::{pipe, serve};
use crate::version::tell_version;
use command_line::{BadWords, Job, job_of};
use conversation::write_whole;
use counted_streams::{Reader, Ready, Writer};
use drda_server::{Log, Network};
use grown_stores::grow_file;
use std::alloc::Global;
use std::convert::AsStr;
use std::io::{Read, Write};
use std::sync::Wait;
use std::thread::Threads;
use std::time::Clock;
use store_files::{Fault, StoreFiles, flush, make_file, open_file, tell};
use told_stores::{check, dump, list_doubts, list_tables, tell_room};
use xa_calls::Xid;
use xa_manager::Decision;

/// Does what the words say, the program's name first, and answers the exit status; a fault's line goes
/// to `err`, behind the text of the command-line parser, or a line that says which argument is bad, where they are, and the
/// reason of the files or the network where a file or a port can't be had, and nothing else does. Faults are found in this
/// order: arguments, login, file, store, run.
///
/// - `init PATH --size N --rdb NAME` makes a store in a new file, and says its size.
/// - `pipe [PATH] [--rdb NAME] --user U:P` answers event records from `reader` to `out`, over the store
///   of the path, or over one in memory that is just made and has this name.
/// - `serve PATH --port N --user U:P [--count N] [--idle N] [--login N] [--cursor-bytes N] [--all-bytes N] [--log] [--end-when-failed]`
///   says its port and serves conversations over sockets, up to 64 side by side, each in a thread of its own; with `--idle N` a connection
///   on which nothing has come, or nothing was taken, for N seconds is closed, one that has not opened the database within the N seconds of
///   `--login` is too, and with `--log` what becomes of conversations is told to `log`.
/// - `indoubt PATH` lists the units in doubt of a store, with how each was decided heuristically, where it was.
/// - `decide PATH FORMAT:GLOBAL:BRANCH commit|rollback`, or with these parts in words of their own, decides a unit in doubt in
///   the place of its transaction manager, and says so; a store of layout 1 is checkpointed first.
/// - `room PATH` tells the name and size of a store, its room, and how many units are in doubt.
/// - `check PATH` says that a store is whole, where it is.
/// - `tables PATH` prints the CREATE TABLE of each table, with its rows and pages in a comment.
/// - `dump PATH` prints the SQL that makes the tables anew, behind a comment for each unit in doubt.
/// - `grow PATH NEW --size N` moves a store into a new file of so many bytes, and says so.
/// - `version` tells the program's version.
///
/// In the place of `--user U:P` may stand `--user-file FILE`, a file that holds U:P.
///
/// The status is 0 where the job was done; 1 where the words ask for none, for a store of a size or name that none has, or for a login in a
/// file that holds none; 2 where a file, a port or a stream failed, the last flush included; 3 where a file is no store or a damaged one; 4
/// where what came is no event; 5 where memory was refused; 6 where no unit of the XID waits for its decision; 7 where the checkpoint
/// before a decision has no room, and the store stays as it was, or a store is to be moved into a size that is no store's, or a smaller
/// one's.
///
/// Of a store in a file all is said of the disk that opening its path gave: `indoubt` lists the units in
/// doubt of the state that it opens to, in the order of their bytes; `pipe` answers as a machine does that
/// begins with that state, and what its calls left on it is journaled, as is what `decide` left on it, which is the
/// decision, or nothing where it refuses; `serve` lets its conversations ask a
/// core that begins with that state, under one lock; `init` has made it a fresh store of the size and name that
/// were asked. Where a disk may give back something else than what was written, no state is said of it.
pub fn run_words<
    T: Threads + Wait + Clock + Sync,
    S: AsStr,
    F: StoreFiles,
    N: Network,
    L: Log + Sync,
    R: Read + Ready,
    W: Write,
    E: Write,
>(
    rt: &T,
    alloc: Global,
    words: &[S],
    files: &mut F,
    net: &mut N,
    log: &L,
    reader: &mut Reader<R>,
    out: &mut Writer<W>,
    err: &mut E,
) -> u8
where
    F::Disk: Send,
    N::Stream: Send,
    N::Writer: Send,
    ensures { Exits (surroundings F.calls F.Disk.is_modelled F.Disk.life N.calls N.Stream.remaining N.Writer.contents) F.Disk.syncs (said (map S.text words.now))
        (R.remaining (source_of reader.old)) (counts reader.old out.old) (seen files.old net.old (W.contents (sink_of out.old))) result (counts reader.new out.new) (seen files.new net.new (W.contents (sink_of out.new)))
        (E.contents err.old) (E.contents err.new) }
{
    let mut text = String::new(alloc);
    match try_words(rt, alloc, words, files, net, log, reader, out, &mut text) {
        Ok(()) => 0,
        Err(fault) => {
            let _ = write_whole(err, text.as_bytes());
            explain(fault, files, net, err);
            fault.say(alloc, err);
            fault.status()
        }
    }
}

// Writes why a file or a port can't be had, where that is the fault and is known, or as much of it as can be written.
fn explain<F: StoreFiles, N: Network, E: Write>(fault: Fault, files: &F, net: &N, err: &mut E)
    ensures { (told : List ℕ) × (fault ≢ Fault.Device → told ≡ []) × Appends (E.contents err.old) (E.contents err.new) told }
{
    match fault {
        Fault::Device => {
            tell_people(files.reason(), err);
            tell_people(net.reason(), err);
        }
        _ => {}
    }
}

// Writes a text for people, or as much of it as can be written.
fn tell_people<E: Write>(text: &str, err: &mut E)
    ensures { (told : List ℕ) × Appends (E.contents err.old) (E.contents err.new) told }
{
    let _ = write_whole(err, text.as_bytes());
}

// Does what the words say. What there is to say of bad words is appended to `text`.
fn try_words<
    T: Threads + Wait + Clock + Sync,
    S: AsStr,
    F: StoreFiles,
    N: Network,
    L: Log + Sync,
    R: Read + Ready,
    W: Write,
>(
    rt: &T,
    alloc: Global,
    words: &[S],
    files: &mut F,
    net: &mut N,
    log: &L,
    reader: &mut Reader<R>,
    out: &mut Writer<W>,
    text: &mut String,
) -> Result<(), Fault>
where
    F::Disk: Send,
    N::Stream: Send,
    N::Writer: Send,
    ensures does { ((result ≡ Err Fault.NoMemory) × (seen files.new net.new (W.contents (sink_of out.new)) ≡ seen files.old net.old (W.contents (sink_of out.old))))
        ⊎ Does (surroundings F.calls F.Disk.is_modelled F.Disk.life N.calls N.Stream.remaining N.Writer.contents) F.Disk.syncs (said (map S.text words.now))
        (R.remaining (source_of reader.old)) (counts reader.old out.old) (seen files.old net.old (W.contents (sink_of out.old))) result (counts reader.new out.new) (seen files.new net.new (W.contents (sink_of out.new))) }
    ensures quiet { said (map S.text words.now) ≢ None → result ≢ Err Fault.BadArguments → string_bytes text.new ≡ string_bytes text.old }
{
    match job_of(alloc, words, text) {
        Ok(job) => {
            let done = do_job(rt, alloc, &job, files, net, log, reader, out);
            tell_if_bad(done, &job, text);
            done
        }
        Err(bad) => Err(fault_of_words(bad)),
    }
}

// What is reported of words that ask for nothing.
fn fault_of_words(bad: BadWords) -> Fault
    ensures { result ≡ fault_of_words bad }
{
    match bad {
        BadWords::NoJob => Fault::BadArguments,
        BadWords::NoMemory => Fault::NoMemory,
    }
}

fn do_job<
    T: Threads + Wait + Clock + Sync,
    F: StoreFiles,
    N: Network,
    L: Log + Sync,
    R: Read + Ready,
    W: Write,
>(
    rt: &T,
    alloc: Global,
    job: &Job<'_>,
    files: &mut F,
    net: &mut N,
    log: &L,
    reader: &mut Reader<R>,
    out: &mut Writer<W>,
) -> Result<(), Fault>
where
    F::Disk: Send,
    N::Stream: Send,
    N::Writer: Send,
    ensures { Does (surroundings F.calls F.Disk.is_modelled F.Disk.life N.calls N.Stream.remaining N.Writer.contents) F.Disk.syncs (Some (plain_job job.now))
        (R.remaining (source_of reader.old)) (counts reader.old out.old) (seen files.old net.old (W.contents (sink_of out.old))) result (counts reader.new out.new) (seen files.new net.new (W.contents (sink_of out.new))) }
{
    match job {
        Job::Init { path, size, rdb } => init(alloc, files, path, *size, rdb, out),
        Job::Pipe { path, rdb, login } => pipe(alloc, files, *path, rdb, *login, reader, out),
        Job::Serve {
            path,
            port,
            login,
            options,
        } => serve(
            rt, alloc, files, net, log, path, *port, *login, *options, out,
        ),
        Job::InDoubt { path } => list_doubts(alloc, files, path, out),
        Job::Decide {
            path,
            xid,
            decision,
        } => decide(alloc, files, path, xid, *decision, out),
        Job::Room { path } => tell_room(alloc, files, path, out),
        Job::Check { path } => check(alloc, files, path, out),
        Job::Tables { path } => list_tables(alloc, files, path, out),
        Job::Dump { path } => dump(alloc, files, path, out),
        Job::Grow { path, new, size } => grow_file(alloc, files, path, new, *size, out),
        Job::Version => tell_version(out),
    }
}

// Makes a store and says its size.
fn init<F: StoreFiles, W: Write>(
    alloc: Global,
    files: &mut F,
    path: &str,
    size: u64,
    rdb: &str,
    out: &mut W,
) -> Result<(), Fault>
    ensures { Makes F.Disk.is_modelled F.Disk.life F.calls path.now size rdb.now files.old (W.contents out.old) result files.new (W.contents out.new) }
{
    make_file(alloc, files, path, size, rdb)?;
    match writeln!(out, "formatted {size}") {
        Ok(()) => flush(out),
        Err(_) => Err(Fault::Device),
    }
}

// Decides a unit in doubt, and says so.
fn decide<F: StoreFiles, W: Write>(
    alloc: Global,
    files: &mut F,
    path: &str,
    xid: &Xid,
    decision: Decision,
    out: &mut W,
) -> Result<(), Fault>
    ensures { DecidesFile F.Disk.is_modelled F.Disk.life F.calls path.now xid.now decision files.old (W.contents out.old) result files.new (W.contents out.new) }
{
    let mut core = open_file(alloc, files, path)?;
    decide_on(&mut core, xid, decision)?;
    tell("decided\n", out)
}
