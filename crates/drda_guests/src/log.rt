//! Who is told what a server does.

use crate::notice::Notice;
use std::sync::{Mutex, Wait};

/// Who is told what a server does, by all of its threads. What is told holds no bytes that a client sent: no
/// password, and no user.
pub trait Log {
    /// Something is to be told. No lock on the store is held meanwhile; the thread that tells it waits until this
    /// returns.
    fn tell(&self, notice: Notice);
}

/// Tells nobody.
#[derive(Clone, Copy)]
pub struct Silent;

impl Log for Silent {
    fn tell(&self, _notice: Notice) {}
}

/// Tells on standard error, a line each; a line is written whole before another thread's is begun. One that can't be
/// written is lost.
#[derive(Drop)]
pub struct ErrorLog<'a, R> {
    rt: &'a R,
    turn: Mutex<u8>,
}

impl<'a, R: Eprint + Wait> ErrorLog<'a, R> {
    /// A log on the standard error of this handle.
    pub fn new(rt: &'a R) -> ErrorLog<'a, R> {
        ErrorLog {
            rt,
            turn: Mutex::new(0),
        }
    }
}

impl<R: Eprint + Wait> Log for ErrorLog<'_, R> {
    fn tell(&self, notice: Notice) {
        let _turn = self.turn.lock(self.rt);
        let _ = self.rt.eprintln(notice);
    }
}

/// Tells another one, where it is switched on.
#[derive(Clone, Copy)]
pub struct Switched<'a, L> {
    pub log: &'a L,
    pub is_on: bool,
}

impl<L: Log> Log for Switched<'_, L> {
    fn tell(&self, notice: Notice) {
        if self.is_on {
            self.log.tell(notice);
        }
    }
}
