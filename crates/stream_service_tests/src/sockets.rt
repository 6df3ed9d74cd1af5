//! A conversation over a socket, both of whose ends are in this process.

use crate::cores::{Core, serve_over};
use crate::names::bytes_named;
use counted_streams::{Reader, Writer};
use std::alloc::{AllocError, Global};
use std::io::{Read, Write};
use std::net::{Ipv4Addr, Net, OpenListener, OpenStream, Shutdown, SocketAddr, SocketAddrV4};
use stream_service::{OpenHouse, Served};

// Serves the one who waits.
fn serve_one<L: OpenListener>(alloc: Global, core: &mut Core, listener: &L) -> Option<Served>
where
    L::Stream: Read + Write + OpenStream,
{
    let (stream, _) = listener.accept().ok()?;
    let mut writer = Writer::new(stream.try_clone().ok()?);
    let mut reader = Reader::new(stream);
    serve_over(alloc, core, &mut reader, &mut writer, &mut OpenHouse)
}

// Whether this was sent, and that no more comes.
fn is_sent<S: Write + OpenStream>(client: &mut S, request: &[u8]) -> bool {
    client.write_all(request).is_ok() && client.shutdown(Shutdown::Write).is_ok()
}

fn answers_of<S: Read>(alloc: Global, client: &mut S) -> Option<Vec<u8>> {
    let mut answers = Vec::new(alloc);
    client.read_to_end(&mut answers).ok()?;
    Some(answers)
}

// How a client is served that sends this, and then no more, and what it is answered.
fn answers_to<N: Net>(
    alloc: Global,
    net: &N,
    core: &mut Core,
    request: &[u8],
) -> Option<(Served, Vec<u8>)> {
    let address = SocketAddr::V4(SocketAddrV4::new(Ipv4Addr::new(127, 0, 0, 1), 0));
    let listener = net.bind(address).ok()?;
    let mut client = net.connect(listener.local_addr().ok()?).ok()?;
    if !is_sent(&mut client, request) {
        return None;
    }
    match serve_one(alloc, core, &listener) {
        Some(served) => Some((served, answers_of(alloc, &mut client)?)),
        None => None,
    }
}

/// Tells how a client over a socket is served whose requests and replies have these names, and whether it is answered so.
pub fn tell_socket(
    rt: &HostRuntime,
    core: &mut Core,
    text: &str,
    (requests, replies): (&str, &str),
    out: &mut String,
) -> Result<(), AllocError> {
    let request = bytes_named(rt.alloc(), text, requests, 1)?;
    let wanted = bytes_named(rt.alloc(), text, replies, 1)?;
    match answers_to(rt.alloc(), rt, core, &request) {
        Some((served, answers)) => {
            let is_wanted = answers == wanted;
            writeln!(out, "  {served:?}, as wanted {is_wanted}")
        }
        None => writeln!(out, "  no answer"),
    }
}
