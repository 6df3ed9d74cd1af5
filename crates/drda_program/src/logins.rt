//! Who may open the database.

ghost use Rattle.std.specs.Prelude.{option_map, string_bytes};
ghost use Rattle.counted_streams.specs.Counts.{counts, sink_of, source_of};
ghost use Rattle.command_line.specs.Job.{plain_login, plain_source};
ghost use Rattle.drda_program.specs.LoggingIn.{FindsLogin, LogsIn, ReadsSource, net_and_out};
ghost use Rattle.drda_program.specs.Program.{PipesOver};
ghost use Rattle.drda_program.specs.Streams.{streams};
ghost use Rattle.drda_server.specs.Serving.{ServesFile, seen, surroundings};
ghost use Rattle.store_files.specs.Stores.{IsOfDevice};

use crate::records::{answer_file, answer_in_memory};
use command_line::{Login, LoginSource, ServeOptions, login_in_file};
use counted_streams::{Reader, Ready, Writer};
use drda_server::{Log, Network, serve_file};
use std::alloc::Global;
use std::io::{self, ErrorKind, Read, Write};
use std::sync::Wait;
use std::thread::Threads;
use std::time::Clock;
use store_files::{Fault, StoreFiles};

/// Serves conversations over the store of a path, once the login is known.
pub(crate) fn serve<T, F, N, L, W>(
    rt: &T,
    alloc: Global,
    files: &mut F,
    net: &mut N,
    log: &L,
    path: &str,
    port: u16,
    source: LoginSource<'_>,
    options: ServeOptions,
    out: &mut W,
) -> Result<(), Fault>
where
    T: Threads + Wait + Clock + Sync,
    F: StoreFiles,
    N: Network,
    L: Log + Sync,
    W: Write,
    F::Disk: Send,
    N::Stream: Send,
    N::Writer: Send,
    ensures { LogsIn F.calls (plain_source source.entry) files.old (net_and_out net.old (W.contents out.old)) result files.new (net_and_out net.new (W.contents out.new)) (λ login mid.
        ServesFile (surroundings F.calls F.Disk.is_modelled F.Disk.life N.calls N.Stream.remaining N.Writer.contents) path.now port login options
        (seen mid net.old (W.contents out.old)) result (seen files.new net.new (W.contents out.new))) }
{
    let text = read_source(alloc, files, source)?;
    let login = login_by(source, &text)?;
    serve_file(rt, alloc, files, net, log, path, port, login, options, out)
}

/// Runs a node over the store of a path, or over one in memory, once the login is known.
pub(crate) fn pipe<F: StoreFiles, R: Read + Ready, W: Write>(
    alloc: Global,
    files: &mut F,
    path: Option<&str>,
    rdb: &str,
    source: LoginSource<'_>,
    reader: &mut Reader<R>,
    out: &mut Writer<W>,
) -> Result<(), Fault>
    ensures { LogsIn F.calls (plain_source source.entry) files.old (streams (W.contents (sink_of out.old)) (counts reader.old out.old)) result files.new (streams (W.contents (sink_of out.new)) (counts reader.new out.new)) (λ login mid.
        PipesOver F.Disk.is_modelled F.Disk.life F.calls F.Disk.syncs (option_map (λ p. p.now) path.entry) rdb.now login mid (R.remaining (source_of reader.old)) (streams (W.contents (sink_of out.old)) (counts reader.old out.old)) result files.new (streams (W.contents (sink_of out.new)) (counts reader.new out.new))) }
{
    let text = read_source(alloc, files, source)?;
    let login = login_by(source, &text)?;
    pipe_by(alloc, files, path, rdb, login, reader, out)
}

fn pipe_by<F: StoreFiles, R: Read + Ready, W: Write>(
    alloc: Global,
    files: &mut F,
    path: Option<&str>,
    rdb: &str,
    login: Login<'_>,
    reader: &mut Reader<R>,
    out: &mut Writer<W>,
) -> Result<(), Fault>
    ensures { PipesOver F.Disk.is_modelled F.Disk.life F.calls F.Disk.syncs (option_map (λ p. p.now) path.entry) rdb.now (plain_login login.entry) files.old (R.remaining (source_of reader.old)) (streams (W.contents (sink_of out.old)) (counts reader.old out.old)) result files.new (streams (W.contents (sink_of out.new)) (counts reader.new out.new)) }
{
    match path {
        None => answer_in_memory(alloc, rdb, login, reader, out),
        Some(path) => answer_file(alloc, files, path, login, reader, out),
    }
}

// The text that a login stands in, where that is a file; an empty one where it is in the words.
fn read_source<F: StoreFiles>(
    alloc: Global,
    files: &mut F,
    source: LoginSource<'_>,
) -> Result<String, Fault>
    ensures { ReadsSource F.calls string_bytes (plain_source source.entry) files.old result files.new }
{
    let LoginSource::File(path) = source else {
        return Ok(String::new(alloc));
    };
    match files.read_private(alloc, path) {
        Ok(text) => Ok(text),
        Err(error) => Err(fault_of(&error)),
    }
}

// What is reported of a file that is not read.
fn fault_of(error: &io::Error) -> Fault
    ensures { IsOfDevice result }
{
    match error.kind() {
        ErrorKind::OutOfMemory => Fault::NoMemory,
        _ => Fault::Device,
    }
}

// The login of the words, or that of the text of a file.
fn login_by<'a>(source: LoginSource<'a>, text: &'a str) -> Result<Login<'a>, Fault>
    ensures { FindsLogin (plain_source source.entry) text.now result }
{
    match source {
        LoginSource::Words(login) => Ok(login),
        LoginSource::File(_) => match login_in_file(text) {
            Some(login) => Ok(login),
            None => Err(Fault::BadArguments),
        },
    }
}
