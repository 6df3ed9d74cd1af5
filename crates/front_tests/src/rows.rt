//! Rows of requests and replies.

use crate::pieces::{Outcome, judged};
use conversation::{Settings, SettingsError};
use std::alloc::Global;
use test_bytes::push_texts;

/// Bytes by their name.
#[derive(Drop)]
struct Named {
    name: Vec<u8>,
    bytes: Vec<u8>,
}

// A copy of the bytes of this name.
fn bytes_of(alloc: Global, named: &[Named], name: &[u8]) -> Option<Vec<u8>> {
    for it in named {
        if it.name.as_slice() == name {
            return Vec::from_slice(alloc, &it.bytes).ok();
        }
    }
    None
}

/// Which bytes the next words belong to.
#[derive(Clone, Copy, Drop)]
enum Target {
    Name,
    Request,
    Reply,
}

/// The names so far, a row, and what became of those before it.
#[derive(Drop)]
pub struct Rows {
    alloc: Global,
    named: Vec<Named>,
    target: Target,
    request: Vec<u8>,
    reply: Vec<u8>,
    is_lost: bool,
    written: Vec<u8>,
}

impl Rows {
    /// No row, and no name.
    pub fn new(alloc: Global) -> Rows {
        Rows {
            alloc,
            named: Vec::new(alloc),
            target: Target::Name,
            request: Vec::new(alloc),
            reply: Vec::new(alloc),
            is_lost: false,
            written: Vec::new(alloc),
        }
    }

    /// What became of the rows.
    pub fn written(&self) -> &[u8] {
        &self.written
    }

    /// Does what each word asks for. None where a name is unknown, and without memory.
    pub fn follow(&mut self, text: &str) -> Option<()> {
        for word in text.split_ascii_whitespace() {
            self.take(word)?;
        }
        Some(())
    }

    // `>` begins a request and `<` its reply; `.` says whether the one is answered by the other, `asked` that too and how
    // often the core is asked for it, which behind `lost` is a lost one, and `name` whether the request's bytes are a
    // database's name. A word behind : is a name for the bytes that follow, and $ stands in
    // front of it where they are meant. One behind # is written down. All else is bytes.
    fn take(&mut self, word: &str) -> Option<()> {
        match word {
            ">" => self.begin(),
            "<" => self.target = Target::Reply,
            "lost" => self.is_lost = true,
            "." => return self.judge(),
            "asked" => return self.judge_asked(),
            "name" => return self.judge_name(),
            _ => return self.take_text(word.as_bytes(), word),
        }
        Some(())
    }

    fn take_text(&mut self, bytes: &[u8], word: &str) -> Option<()> {
        match bytes {
            [b':', name @ ..] => self.define(name),
            [b'$', name @ ..] => self.push_named(name),
            [b'#', ..] => self.note(bytes),
            _ => push_texts(self.bytes()?, &[word]).ok(),
        }
    }

    fn begin(&mut self) {
        self.request.clear();
        self.reply.clear();
        self.is_lost = false;
        self.target = Target::Request;
    }

    fn bytes(&mut self) -> Option<&mut Vec<u8>> {
        match self.target {
            Target::Name => match self.named.last_mut() {
                Some(named) => Some(&mut named.bytes),
                None => None,
            },
            Target::Request => Some(&mut self.request),
            Target::Reply => Some(&mut self.reply),
        }
    }

    fn define(&mut self, name: &[u8]) -> Option<()> {
        let name = Vec::from_slice(self.alloc, name).ok()?;
        let bytes = Vec::new(self.alloc);
        self.named.push(Named { name, bytes }).ok()?;
        self.target = Target::Name;
        Some(())
    }

    fn push_named(&mut self, name: &[u8]) -> Option<()> {
        let bytes = bytes_of(self.alloc, &self.named, name)?;
        match self.bytes() {
            Some(target) => target.extend_from_slice(&bytes).ok(),
            None => None,
        }
    }

    fn note(&mut self, text: &[u8]) -> Option<()> {
        self.written.extend_from_slice(text).ok()?;
        self.written.push(b'\n').ok()
    }

    fn judged(&self) -> Option<Outcome> {
        judged(self.alloc, &self.request, &self.reply, self.is_lost)
    }

    fn judge(&mut self) -> Option<()> {
        let outcome = self.judged()?;
        self.note(text_of(outcome.is_answered))
    }

    fn judge_asked(&mut self) -> Option<()> {
        let outcome = self.judged()?;
        self.written
            .extend_from_slice(text_of(outcome.is_answered))
            .ok()?;
        self.written.extend_from_slice(b", asked ").ok()?;
        self.written.push(b'0'.saturating_add(outcome.asked)).ok()?;
        self.note(if outcome.is_closed { b", closed" } else { b"" })
    }

    fn judge_name(&mut self) -> Option<()> {
        let name = str::from_utf8(&self.request).ok()?;
        let text: &[u8] = match Settings::new(self.alloc, "ana", "pw", name) {
            Ok(_) => b"a name",
            Err(SettingsError::BadName) => b"no name",
            Err(SettingsError::NoMemory) => return None,
        };
        self.note(text)
    }
}

fn text_of(is_answered: bool) -> &'static [u8] {
    if is_answered {
        b"answered"
    } else {
        b"answered otherwise"
    }
}
