//! Conversations over a network.

ghost use Rattle.std.specs.Prelude.{◌≡◌, ◌⊎◌, Err, IfErr, IfOk, IsTrue, ℕ};
ghost use Rattle.std.specs.Io.KnownBytes.{Appends};
ghost use Rattle.command_line.specs.Job.{plain_login};
ghost use Rattle.durable_core.specs.Ahead.{LetsOpenEarly};
ghost use Rattle.drda_server.specs.Listening.{Listens, ServesStreams, port_line};
ghost use Rattle.drda_server.specs.Serving.{EndsSo, ServesCore, ServesFile, seen, settings_of, surroundings};
ghost use Rattle.store_files.specs.Stores.{IsOfDevice, RefusesName};

use crate::letting_in::LetIn;
use crate::network::Network;
use crate::threads::{Rules, serve_streams};
use command_line::{Login, ServeOptions};
use conversation::{Settings, SettingsError};
use drda_disk::Disk;
use drda_guests::{Failure, Log, Name, Notice, Switched};
use durable_core::DurableCore;
use shared_node::{OpenGate, Origin, Shared};
use std::alloc::Global;
use std::io::Write;
use std::marker::Brand;
use std::net::{Ipv4Addr, SocketAddr, SocketAddrV4};
use std::sync::Wait;
use std::thread::Threads;
use std::time::Clock;
use store_files::{Fault, StoreFiles, flush, open_file};

/// How many units are in doubt at most.
const MOST_DOUBTS: u64 = 256;

/// Serves conversations over the store of a path, on a port of 127.0.0.1, each in a thread of its own, as the
/// options say: so many, or without end, and perhaps those alone whose clients go on to send. It ends early where no
/// stream is let in any more; a stream that fails ends its own conversation alone, and where the device has failed
/// each command is answered so. What becomes of them is told to `log`, where the options say so.
pub fn serve_file<R, F, N, L, W>(
    rt: &R,
    alloc: Global,
    files: &mut F,
    net: &mut N,
    log: &L,
    path: &str,
    port: u16,
    login: Login<'_>,
    options: ServeOptions,
    out: &mut W,
) -> Result<(), Fault>
where
    R: Threads + Wait + Clock + Sync,
    F: StoreFiles,
    N: Network,
    L: Log + Sync,
    W: Write,
    F::Disk: Send,
    N::Stream: Send,
    N::Writer: Send,
    ensures { ServesFile (surroundings F.calls F.Disk.is_modelled F.Disk.life N.calls N.Stream.remaining N.Writer.contents) path.now port (plain_login login.entry) options
        (seen files.old net.old (W.contents out.old)) result (seen files.new net.new (W.contents out.new)) }
{
    let core = open_file(alloc, files, path)?;
    let settings = settings_for(alloc, &core, login)?;
    core_history::laws::kept_books_last::<F::Disk>();
    F::lets_early();
    serve_core::<F::Disk, Brand, R, N, L, W>(
        rt, alloc, core, &settings, net, log, port, options, out,
    )
}

// Serves conversations over the store of a core, of which no more was asked than that it was opened.
fn serve_core<D, B, R, N, L, W>(
    rt: &R,
    alloc: Global,
    core: DurableCore<D>,
    settings: &Settings,
    net: &mut N,
    log: &L,
    port: u16,
    options: ServeOptions,
    out: &mut W,
) -> Result<(), Fault>
where
    D: Disk + Send + Drop,
    B: Origin<D> + Send,
    R: Threads + Wait + Clock + Sync,
    N: Network,
    L: Log + Sync,
    W: Write,
    N::Stream: Send,
    N::Writer: Send,
    requires origin { B.is core }
    requires early { IsTrue D.is_modelled → LetsOpenEarly D.allows }
    ensures { ServesCore D.is_modelled D.life N.calls N.Stream.remaining N.Writer.contents B.is settings.now options port net.old (W.contents out.old) result net.new (W.contents out.new) }
{
    let opened = opened(&core);
    let shared: Shared<D, B> = match Shared::new(alloc, core, options.all_bytes) {
        Ok(shared) => shared,
        Err(_) => return Err(Fault::NoMemory),
    };
    tell(log, options, opened);
    let listened = listen(rt, alloc, &shared, settings, net, log, port, options, out);
    let ended = end_of(alloc, shared);
    listened.and(ended)
}

// Whoever waits for a stream looks up now and then, where a failure ends serving.
fn look_up<N: Network>(net: &N, listener: &N::Listener, options: ServeOptions) {
    if options.ends_when_failed {
        net.look_up(listener);
    }
}

// Tells it, where the options say so.
fn tell<L: Log>(log: &L, options: ServeOptions, notice: Notice) {
    if options.is_logged {
        log.tell(notice);
    }
}

// What is told of a store that is about to be served.
fn opened<D: Disk>(core: &DurableCore<D>) -> Notice {
    let mut left = core.in_doubt();
    let mut doubts = 0u64;
    for _ in 0..MOST_DOUBTS {
        if left.next().is_some() {
            doubts = doubts.saturating_add(1);
        }
    }
    Notice::Opened {
        name: Name::of(core.name()),
        room: core.room(),
        doubts,
    }
}

// What a server of this login starts its conversations with, whose database has the name of its store. A name
// that no database has is the name of no store.
fn settings_for<D: Disk>(
    alloc: Global,
    core: &DurableCore<D>,
    login: Login<'_>,
) -> Result<Settings, Fault>
    ensures of { IfOk result (λ s. s ≡ settings_of (plain_login login.entry) core.now.name) }
    ensures refused { IfErr result (RefusesName core.now.name) }
{
    match Settings::new(alloc, login.user, login.password, core.name()) {
        Ok(settings) => Ok(settings),
        Err(SettingsError::BadName) => Err(Fault::NotAStore),
        Err(SettingsError::NoMemory) => Err(Fault::NoMemory),
    }
}

// Listens on a port of 127.0.0.1, says which on `out`, and serves the conversations of its streams.
fn listen<R, D, B, N, L, W>(
    rt: &R,
    alloc: Global,
    shared: &Shared<D, B>,
    settings: &Settings,
    net: &mut N,
    log: &L,
    port: u16,
    options: ServeOptions,
    out: &mut W,
) -> Result<(), Fault>
where
    R: Threads + Wait + Clock + Sync,
    D: Disk + Send + Drop,
    B: Origin<D> + Send,
    N: Network,
    L: Log + Sync,
    W: Write,
    N::Stream: Send,
    N::Writer: Send,
    ensures { Listens N.calls D.is_modelled D.life B.is N.Stream.remaining N.Writer.contents settings.now options port net.old (W.contents out.old) result (W.contents out.new) }
{
    let address = SocketAddr::V4(SocketAddrV4::new(Ipv4Addr::new(127, 0, 0, 1), port));
    match net.bind(address) {
        Ok(listener) => {
            say_port(net, &listener, out)?;
            serve_all(rt, alloc, shared, settings, net, log, &listener, options)
        }
        Err(_) => Err(Fault::Device),
    }
}

// Serves the streams that a listener lets in.
fn serve_all<R, D, B, N, L>(
    rt: &R,
    alloc: Global,
    shared: &Shared<D, B>,
    settings: &Settings,
    net: &mut N,
    log: &L,
    listener: &N::Listener,
    options: ServeOptions,
) -> Result<(), Fault>
where
    R: Threads + Wait + Clock + Sync,
    D: Disk + Send + Drop,
    B: Origin<D> + Send,
    N: Network,
    L: Log + Sync,
    N::Stream: Send,
    N::Writer: Send,
    ensures cause { IfErr result IsOfDevice }
    ensures served { (result ≡ Err Fault.NoMemory) ⊎ ServesStreams N.calls D.is_modelled D.life B.is N.Stream.remaining N.Writer.contents settings.now options listener.now }
{
    let count = options.count.unwrap_or(u64::MAX);
    let failure = Failure::new(options.ends_when_failed);
    let rules = Rules {
        login: options.login,
        idle: options.idle,
        cursor_bytes: usize::try_from(options.cursor_bytes).unwrap_or(usize::MAX),
        failure: &failure,
    };
    look_up(net, listener, options);
    let mut streams = LetIn::new(net, listener, options.idle, count, &failure);
    let switched = Switched {
        log,
        is_on: options.is_logged,
    };
    serve_streams(
        rt,
        alloc,
        shared,
        settings,
        &OpenGate,
        &switched,
        rules,
        &mut streams,
    )?;
    if streams.has_failed() {
        return Err(Fault::Device);
    }
    Ok(())
}

// How serving ends, once each thread has given its pass back: a device that has failed is told.
fn end_of<D: Disk + Drop, B: Origin<D>>(alloc: Global, shared: Shared<D, B>) -> Result<(), Fault>
    ensures cause { IfErr result IsOfDevice }
    ensures ends { EndsSo D.is_modelled D.life B.is result }
{
    let book = match shared.close(Vec::new(alloc)) {
        Ok(book) => book,
        Err(book) => book,
    };
    book.is_kept();
    if book.core().is_failed() {
        return Err(Fault::Device);
    }
    Ok(())
}

// Says the port of a listener.
fn say_port<N: Network, W: Write>(net: &N, listener: &N::Listener, out: &mut W) -> Result<(), Fault>
    ensures said { IfOk result (λ _. (port : ℕ) × N.calls.has_port listener.now port × Appends (W.contents out.old) (W.contents out.new) (port_line port)) }
    ensures cause { IfErr result IsOfDevice }
{
    let Ok(port) = net.port(listener) else {
        return Err(Fault::Device);
    };
    match writeln!(out, "listening {port}") {
        Ok(()) => flush(out),
        Err(_) => Err(Fault::Device),
    }
}
