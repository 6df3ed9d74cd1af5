//! The files and the network of the system.

use crate::networks::address;
use drda_program::{Network, SystemNetwork};
use std::alloc::Global;
use std::fs::{self, File, Permissions};
use std::io::{Read, Write};
use std::net::{Net, OpenListener, OpenStream};
use std::os::unix::fs::PermissionsExt;
use std::rt::Files;
use std::time::{Clock, Duration};

/// A place for files of the system, whose paths begin alike.
#[derive(Clone, Copy)]
pub struct Place<'a, R> {
    pub rt: &'a R,
    pub alloc: Global,
    pub front: &'a str,
}

impl<R: Files<File = File>> Place<'_, R> {
    // A word, or the path of the file whose name stands behind @.
    fn word(&self, word: &str) -> Option<String> {
        match word.strip_prefix('@') {
            Some(name) => format!(in self.alloc; "{}{name}", self.front).ok(),
            None => String::from_str(self.alloc, word).ok(),
        }
    }

    /// Words, which stand between upright lines, with the path of a file in the place of each that is a name behind @.
    pub fn words(&self, words: &str) -> Option<Vec<String>> {
        let mut named = Vec::new(self.alloc);
        for word in words.split('|') {
            named.push(self.word(word)?).ok()?;
        }
        Some(named)
    }

    /// The length of the first file that words name, 0 where there is none.
    pub fn length(&self, words: &str) -> Option<u64> {
        for word in words.split('|') {
            if word.starts_with('@') {
                let path = self.word(word)?;
                return match fs::metadata(self.rt, path.as_str()) {
                    Ok(file) => Some(file.len()),
                    Err(_) => Some(0),
                };
            }
        }
        Some(0)
    }

    /// Lays a file with the rights behind its name in the place of the one that was there, or takes that away where there are none.
    pub fn lay(&self, asked: &str, bytes: &[u8]) -> Option<()> {
        let (name, rights) = asked.split_once('|')?;
        let rights = rights.parse::<u32>().ok()?;
        let path = self.word(name)?;
        let _ = fs::remove_file(self.rt, path.as_str());
        if rights == 0 {
            return Some(());
        }
        fs::write(self.rt, path.as_str(), bytes).ok()?;
        fs::set_permissions(self.rt, path.as_str(), Permissions::from_mode(rights)).ok()
    }
}

/// Two ends of a stream, the one let in by the network of the system: tells whether just the address was listened on that was asked for,
/// from whom it comes, whether small segments are sent at once, how long a read of it waits, and whether what is written on its second
/// handle comes to the other end.
pub fn tell_sockets<R: Net + Clock>(rt: &R, alloc: Global, told: &mut Vec<u8>) -> Option<()> {
    let mut net = SystemNetwork::new(alloc, rt);
    let listener = net.bind(address(0)).ok()?;
    tell_listener(rt, alloc, &mut net, &listener, told)
}

fn tell_listener<R: Net + Clock>(
    rt: &R,
    alloc: Global,
    net: &mut SystemNetwork<'_, R>,
    listener: &R::Listener,
    told: &mut Vec<u8>,
) -> Option<()> {
    let port = net.port(listener).ok()?;
    let is_local = listener.local_addr().ok()? == address(port);
    let mut client = rt.connect(address(port)).ok()?;
    let stream = net.accept(listener).ok()?;
    tell_stream(alloc, net, &stream, is_local, &mut client, told)
}

fn tell_stream<R: Net + Clock>(
    alloc: Global,
    net: &mut SystemNetwork<'_, R>,
    stream: &R::Stream,
    is_local: bool,
    client: &mut R::Stream,
    told: &mut Vec<u8>,
) -> Option<()> {
    net.limit(stream, 7).ok()?;
    net.limit_writes(stream, 9).ok()?;
    net.hurry(stream).ok()?;
    let is_peer = net.peer(stream) == Some(client.local_addr().ok()?);
    let is_hurried = stream.nodelay().ok()?;
    let is_limited = stream.read_timeout().ok()? == Some(Duration::from_secs(7))
        && stream.write_timeout().ok()? == Some(Duration::from_secs(9));
    let is_heard = is_heard(net, stream, client)?;
    let text = format!(in alloc;
        "local {is_local}, peer {is_peer}, hurried {is_hurried}, limited {is_limited}, heard {is_heard}\n"
    );
    told.extend_from_slice(text.ok()?.as_bytes()).ok()
}

fn is_heard<R: Net + Clock>(
    net: &mut SystemNetwork<'_, R>,
    stream: &R::Stream,
    client: &mut R::Stream,
) -> Option<bool> {
    let mut writer = net.writer(stream).ok()?;
    writer.write_all(b"drda").ok()?;
    let mut heard = [0u8; 4];
    client.read_exact(&mut heard).ok()?;
    Some(heard == *b"drda")
}
