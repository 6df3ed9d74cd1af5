//! Networks that are made up.

use drda_program::Network;
use std::io::{self, ErrorKind, Read, Write};
use std::net::{Ipv4Addr, OpenStream, SocketAddr, SocketAddrV4};

/// A network with one listener, of this machine alone, asked for the port 0 or 4711 and found at 4711. By its way the ports are `taken`;
/// none is let in (`shut`); letting one in fails 99 times before the first (`late`), before each (`late-each`), or 100 times (`too-late`);
/// or the first caller is broken and the others are not (`broken-then`). By any other way each caller is such a one. Each says the same,
/// and has a second handle only once it was asked to hurry.
#[derive(Drop)]
pub struct Callers<'a> {
    way: &'a str,
    said: &'a [u8],
    // How often letting one in will fail.
    failures: u64,
    has_come: bool,
    // An address was refused.
    is_refused: bool,
    // The last one that came was asked to hurry.
    is_hurried: bool,
    /// To how many seconds the reads of the last one were limited, 0 where they were not.
    pub limit: u32,
    /// The same for the writes on it.
    pub limit_writes: u32,
    /// How often it was paused.
    pub pauses: u64,
}

/// Who calls. One that is `broken` can't be read, one that is `deaf` can't be written to, `alone` has no second handle, `slow` can't be
/// hurried and the writes on one that is `mute` can't be limited; any other one says bytes and hears all.
#[derive(Drop)]
pub struct Call<'a> {
    way: &'a str,
    said: &'a [u8],
}

// How often letting one in fails before the first.
fn failures_of(way: &str) -> u64 {
    match way {
        "late" | "late-each" => 99,
        "too-late" => 100,
        _ => 0,
    }
}

fn refused<T>() -> io::Result<T> {
    Err(io::Error::from(ErrorKind::Other))
}

/// A port of this machine.
pub fn address(port: u16) -> SocketAddr {
    SocketAddr::V4(SocketAddrV4::new(Ipv4Addr::new(127, 0, 0, 1), port))
}

impl<'a> Callers<'a> {
    /// Such a network, to which nobody has come yet.
    pub fn new(way: &'a str, said: &'a [u8]) -> Callers<'a> {
        Callers {
            way,
            said,
            failures: failures_of(way),
            has_come: false,
            is_refused: false,
            is_hurried: false,
            limit: 0,
            limit_writes: 0,
            pauses: 0,
        }
    }
}

impl<'a> Network for Callers<'a> {
    type Listener = u16;

    type Stream = Call<'a>;

    type Writer = Call<'a>;

    fn bind(&mut self, at: SocketAddr) -> io::Result<u16> {
        if self.way == "taken" || at != address(0) && at != address(4711) {
            self.is_refused = true;
            return refused();
        }
        Ok(4711)
    }

    fn port(&self, listener: &u16) -> io::Result<u16> {
        Ok(*listener)
    }

    fn accept(&mut self, _listener: &u16) -> io::Result<Call<'a>> {
        if self.way == "shut" {
            return refused();
        }
        if self.failures > 0 {
            self.failures -= 1;
            return refused();
        }
        let way = match self.way {
            "broken-then" if self.has_come => "talking",
            "broken-then" => "broken",
            way => way,
        };
        if self.way == "late-each" {
            self.failures = failures_of(self.way);
        }
        self.has_come = true;
        self.is_hurried = false;
        Ok(Call {
            way,
            said: self.said,
        })
    }

    fn reason(&self) -> &str {
        if self.is_refused {
            "drdad: port 0: it is taken\n"
        } else {
            ""
        }
    }

    fn peer(&self, _stream: &Call<'a>) -> Option<SocketAddr> {
        Some(address(51234))
    }

    fn limit(&mut self, stream: &Call<'a>, seconds: u32) -> io::Result<()> {
        if stream.way == "alone" {
            return refused();
        }
        self.limit = seconds;
        Ok(())
    }

    fn limit_writes(&mut self, stream: &Call<'a>, seconds: u32) -> io::Result<()> {
        if stream.way == "mute" {
            return refused();
        }
        self.limit_writes = seconds;
        Ok(())
    }

    fn hurry(&mut self, stream: &Call<'a>) -> io::Result<()> {
        self.is_hurried = true;
        if stream.way == "slow" {
            return refused();
        }
        Ok(())
    }

    fn writer(&mut self, stream: &Call<'a>) -> io::Result<Call<'a>> {
        if stream.way == "alone" || !self.is_hurried {
            return refused();
        }
        Ok(Call {
            way: stream.way,
            said: &[],
        })
    }

    fn pause(&mut self) {
        self.pauses = self.pauses.saturating_add(1);
    }
}

// It can't be ended from elsewhere.
impl OpenStream for Call<'_> {}

impl Read for Call<'_> {
    fn read(&mut self, buffer: &mut [u8]) -> io::Result<usize> {
        if self.way == "broken" {
            return Err(io::Error::from(ErrorKind::Other));
        }
        self.said.read(buffer)
    }
}

impl Write for Call<'_> {
    fn write(&mut self, bytes: &[u8]) -> io::Result<usize> {
        if self.way == "deaf" {
            return Err(io::Error::from(ErrorKind::Other));
        }
        Ok(bytes.len())
    }

    fn flush(&mut self) -> io::Result<()> {
        Ok(())
    }
}
