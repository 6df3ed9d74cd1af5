//! The streams that a listener lets in.

ghost use Rattle.std.specs.Prelude.{◌≡◌, IfErr, IfOk, IfSome, None, Ok};
ghost use Rattle.drda_server.specs.Network.{ClosesAtOnce, FailsToLetIn, IsLimited, IsNotLimited, LetsIn};

use crate::arrivals::Streams;
use crate::network::Network;
use drda_guests::Failure;
use std::io::{self, ErrorKind};
use std::net::SocketAddr;

/// At so many failures in a row to let a stream in, with a moment behind each, none is let in any more.
const MOST_FAILURES: u64 = 100;

/// The streams that a listener lets in, so many at most. None comes once letting one in has failed too often.
#[derive(Drop)]
pub(crate) struct LetIn<'a, N: Network> {
    net: &'a mut N,
    listener: &'a N::Listener,
    idle: Option<u32>,
    left: u64,
    failures: u64,
    has_failed: bool,
    failure: &'a Failure,
}

impl<'a, N: Network> LetIn<'a, N> {
    ghost use Rattle.std.specs.Prelude.{◌≡◌};

    /// So many of them, with this limit of seconds for each read and each write, and none any more once serving ends by a failure.
    pub(crate) fn new(
        net: &'a mut N,
        listener: &'a N::Listener,
        idle: Option<u32>,
        count: u64,
        failure: &'a Failure,
    ) -> LetIn<'a, N>
        ensures listener { result.listener.now ≡ listener.now }
        ensures idle { result.idle ≡ idle }
        ensures count { result.left ≡ count }
        ensures failure { result.failure.now ≡ failure.now }
    {
        LetIn {
            net,
            listener,
            idle,
            left: count,
            failures: 0,
            has_failed: false,
            failure,
        }
    }

    /// Whether none comes any more since letting one in has failed too often.
    pub(crate) fn has_failed(&self) -> bool {
        self.has_failed
    }
}

impl<N: Network> Streams for LetIn<'_, N> {
    ghost use Rattle.drda_server.specs.Listening.{LetsNext};

    type Reader = N::Stream;

    type Writer = N::Writer;

    ghost gives = { λ old given new. LetsNext N.calls old.listener.now old.idle old.failure.now.ends old.left given new.listener.now new.idle new.failure.now.ends new.left };

    fn next(&mut self) -> Option<(N::Stream, N::Writer)> {
        for _ in 0..u64::MAX {
            if self.failure.ends_serving() {
                return self.stop();
            }
            let left = self.left.checked_sub(1)?;
            match let_in(self.net, self.listener, self.idle) {
                Ok(Some(given)) => {
                    self.left = left;
                    self.failures = 0;
                    return Some(given);
                }
                Ok(None) => {
                    self.left = left;
                    self.failures = 0;
                }
                Err(error) => self.bear_failure(&error),
            }
        }
        self.end();
        None
    }

    fn peer(&self, reader: &N::Stream) -> Option<SocketAddr> {
        self.net.peer(reader)
    }

    fn handle(&self, reader: &N::Stream) -> Option<N::Writer> {
        self.net.handle(reader)
    }
}

impl<N: Network> LetIn<'_, N> {
    ghost use Rattle.std.specs.Prelude.{◌≡◌, ◌⊎◌, None};

    // Letting a stream in has failed. Mostly that passes, as where the system is short of something for a while; where none came in time it
    // was no failure.
    fn bear_failure(&mut self, error: &io::Error)
        ensures left { (self.new.left ≡ self.old.left) ⊎ (self.new.left ≡ 0) }
        ensures listener { self.new.listener ≡ self.old.listener }
        ensures idle { self.new.idle ≡ self.old.idle }
        ensures failure { self.new.failure ≡ self.old.failure }
    {
        if error.kind() == ErrorKind::WouldBlock {
            return;
        }
        self.failures = self.failures.saturating_add(1);
        if self.failures < MOST_FAILURES {
            self.net.pause();
        } else {
            self.end();
        }
    }

    // None is let in any more.
    fn end(&mut self)
        ensures left { self.new.left ≡ 0 }
        ensures listener { self.new.listener ≡ self.old.listener }
        ensures idle { self.new.idle ≡ self.old.idle }
        ensures failure { self.new.failure ≡ self.old.failure }
    {
        self.has_failed = true;
        self.left = 0;
    }

    // Serving ends, and none is let in any more.
    fn stop(&mut self) -> Option<(N::Stream, N::Writer)>
        ensures none { result ≡ None }
        ensures listener { self.new.listener ≡ self.old.listener }
        ensures idle { self.new.idle ≡ self.old.idle }
        ensures failure { self.new.failure ≡ self.old.failure }
    {
        self.end();
        None
    }
}

// The next stream that a listener lets in, with its limit and its second handle. A stream that can't have them is
// closed, and none is given; one that can't be hurried is served with its delays.
fn let_in<N: Network>(
    net: &mut N,
    listener: &N::Listener,
    idle: Option<u32>,
) -> io::Result<Option<(N::Stream, N::Writer)>>
    ensures given { IfOk result (λ given. IfSome given (λ both. LetsIn N.calls net.old listener.now idle both.0 both.1 net.new)) }
    ensures closed { result ≡ Ok None → (stream : _) × ClosesAtOnce N.calls listener.now idle stream }
    ensures failed { IfErr result (λ _. FailsToLetIn N.calls listener.now) }
{
    let stream = net.accept(listener)?;
    if limit(net, &stream, idle).is_err() {
        return Ok(None);
    }
    let _ = net.hurry(&stream);
    match net.writer(&stream) {
        Ok(writer) => Ok(Some((stream, writer))),
        Err(_) => Ok(None),
    }
}

// Limits the reads of a stream and the writes on it, where seconds are given.
fn limit<N: Network>(net: &mut N, stream: &N::Stream, idle: Option<u32>) -> io::Result<()>
    ensures limited { IfOk result (λ _. IsLimited N.calls net.old stream.now idle net.new) }
    ensures refused { IfErr result (λ _. IsNotLimited N.calls net.old stream.now idle net.new) }
{
    match idle {
        Some(seconds) => {
            net.limit(stream, seconds)?;
            net.limit_writes(stream, seconds)
        }
        None => Ok(()),
    }
}
