//! What conversations come over.

ghost use Rattle.std.specs.Prelude.{IfOk};
ghost use Rattle.std.specs.Result.{result_ok};
ghost use Rattle.drda_server.specs.Network.{NetworkCalls, any_network};

use std::alloc::Global;
use std::fmt::Write as _;
use std::io::{self, Read, Write};
use std::net::{Net, OpenListener, OpenStream, SocketAddr};
use std::thread::sleep;
use std::time::{Clock, Duration};

/// How long is waited where letting a stream in has failed, in milliseconds.
const MOMENT: u64 = 100;

/// How long is waited before it is looked again whether a stream has come, in milliseconds.
const GLANCE: u64 = 20;

// Whether no stream has come yet.
fn is_none_there<T>(accepted: &io::Result<T>) -> bool {
    match accepted {
        Ok(_) => false,
        Err(error) => error.kind() == io::ErrorKind::WouldBlock,
    }
}

/// A network that is listened on.
///
/// As of files, what a call comes to is a member, which says nothing unless an impl says more.
pub trait Network {
    /// What listens on an address.
    type Listener: Drop;

    /// A stream that was let in, to be read from.
    type Stream: Read + Drop;

    /// The second handle of a stream, to be written on.
    type Writer: Write + OpenStream + Drop;

    /// What a call comes to.
    ghost calls: { NetworkCalls Self Self.Listener Self.Stream Self.Writer } = { any_network };

    /// Listens on an address. Port 0 lets the system pick one.
    fn bind(&mut self, address: SocketAddr) -> io::Result<Self::Listener>
        ensures { calls.binds self.old address (result_ok result) self.new };

    /// The port of a listener.
    fn port(&self, listener: &Self::Listener) -> io::Result<u16>
        ensures { IfOk result (calls.has_port listener.now) };

    /// Waits for the next stream, and lets it in; or only for a moment, where `look_up` was asked for, and fails by WouldBlock then.
    fn accept(&mut self, listener: &Self::Listener) -> io::Result<Self::Stream>
        ensures { calls.lets_in self.old listener.now (result_ok result) self.new };

    /// Whose stream it is, where that is known.
    fn peer(&self, stream: &Self::Stream) -> Option<SocketAddr>;

    /// From now on a read of the stream that has waited for so many seconds fails.
    fn limit(&mut self, stream: &Self::Stream, seconds: u32) -> io::Result<()>
        ensures { calls.limits self.old stream.now seconds (result_ok result) self.new };

    /// From now on a write on the stream that has waited for so many seconds, without a byte that was taken, fails.
    fn limit_writes(&mut self, stream: &Self::Stream, seconds: u32) -> io::Result<()>
        ensures { calls.limits_writes self.old stream.now seconds (result_ok result) self.new };

    /// From now on small segments of what is written on the stream are sent at once, and none waits for more.
    fn hurry(&mut self, stream: &Self::Stream) -> io::Result<()>
        ensures { calls.hurries self.old stream.now (result_ok result) self.new };

    /// A second handle of a stream, to be written on.
    fn writer(&mut self, stream: &Self::Stream) -> io::Result<Self::Writer>
        ensures { calls.answers self.old stream.now (result_ok result) self.new };

    /// A handle more of a stream, by which it can be ended from another thread; None where there is none to be had.
    fn handle(&self, _stream: &Self::Stream) -> Option<Self::Writer> {
        None
    }

    /// From now on whoever waits for a stream of a listener looks up now and then.
    fn look_up(&self, _listener: &Self::Listener) {}

    /// Waits a moment, before a stream is let in again where that has failed.
    fn pause(&mut self);

    /// A line for people that says why an address was refused last; empty where nothing is known of it. As of files it stands
    /// in front of the line of the fault, and no contract says what is in it.
    fn reason(&self) -> &str;
}

/// The network of the system.
#[derive(Drop)]
pub struct SystemNetwork<'a, R> {
    rt: &'a R,
    reason: String,
}

impl<'a, R: Net> SystemNetwork<'a, R> {
    /// The network that a program has by this handle.
    pub fn new(alloc: Global, rt: &'a R) -> SystemNetwork<'a, R> {
        SystemNetwork {
            rt,
            reason: String::new(alloc),
        }
    }

    // Keeps why a port was refused, as far as memory allows.
    fn note(&mut self, port: u16, error: &io::Error) {
        self.reason.clear();
        let _ = writeln!(self.reason, "drdad: port {port}: {error}");
    }
}

impl<'a, R: Net + Clock> Network for SystemNetwork<'a, R> {
    type Listener = R::Listener;

    type Stream = R::Stream;

    type Writer = R::Stream;

    fn bind(&mut self, address: SocketAddr) -> io::Result<R::Listener> {
        let bound = self.rt.bind(address);
        if let Err(error) = &bound {
            self.note(address.port(), error);
        }
        bound
    }

    fn port(&self, listener: &R::Listener) -> io::Result<u16> {
        Ok(listener.local_addr()?.port())
    }

    fn accept(&mut self, listener: &R::Listener) -> io::Result<R::Stream> {
        let accepted = listener.accept();
        if is_none_there(&accepted) {
            sleep(self.rt, Duration::from_millis(GLANCE));
        }
        let (stream, _) = accepted?;
        Ok(stream)
    }

    fn peer(&self, stream: &R::Stream) -> Option<SocketAddr> {
        stream.peer_addr().ok()
    }

    fn limit(&mut self, stream: &R::Stream, seconds: u32) -> io::Result<()> {
        stream.set_read_timeout(Some(Duration::from_secs(u64::from(seconds))))
    }

    fn limit_writes(&mut self, stream: &R::Stream, seconds: u32) -> io::Result<()> {
        stream.set_write_timeout(Some(Duration::from_secs(u64::from(seconds))))
    }

    fn handle(&self, stream: &R::Stream) -> Option<R::Stream> {
        stream.try_clone().ok()
    }

    fn hurry(&mut self, stream: &R::Stream) -> io::Result<()> {
        stream.set_nodelay(true)
    }

    fn writer(&mut self, stream: &R::Stream) -> io::Result<R::Stream> {
        stream.try_clone()
    }

    fn look_up(&self, listener: &R::Listener) {
        let _ = listener.set_nonblocking(true);
    }

    fn pause(&mut self) {
        sleep(self.rt, Duration::from_millis(MOMENT));
    }

    fn reason(&self) -> &str {
        &self.reason
    }
}
