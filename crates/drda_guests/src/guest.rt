//! A conversation on its way to the database.

use crate::doors::Doors;
use crate::log::Log;
use crate::notice::Notice;
use std::net::OpenStream;
use std::sync::Wait;
use std::thread::sleep;
use std::time::{Clock, Duration};
use stream_service::{Access, Host};

/// So many refused logins are answered at once; from then on each answer waits.
const FREE: u64 = 3;

/// For so many moments, of 100 milliseconds each.
const MOMENTS: u64 = 10;

const MOMENT: u64 = 100;

/// A conversation on its way to the database: its stream waits no longer than its time is left; refused logins are told, and behind the
/// third one each answer waits for a second, in that conversation alone, until the database is open.
#[derive(Drop)]
pub struct Guest<'a, R, L, K> {
    pub rt: &'a R,
    pub log: &'a L,
    pub doors: &'a Doors<K>,
    pub place: usize,
    pub conversation: u64,
    pub cursor_bytes: usize,
    pub seen: Access,
}

/// Nothing was seen of a conversation.
pub fn unseen() -> Access {
    Access {
        refused: 0,
        is_checked: false,
        is_opened: false,
    }
}

impl<R: Wait + Clock, L: Log, K: OpenStream + Drop> Host for Guest<'_, R, L, K> {
    fn cursor_bytes(&self) -> usize {
        self.cursor_bytes
    }

    fn came(&mut self) {
        self.hasten();
    }

    fn look(&mut self, access: Access) {
        if self.seen.is_opened {
            return;
        }
        if self.seen.refused >= FREE {
            self.wait();
        }
        if access.refused > self.seen.refused {
            self.log.tell(Notice::Refused {
                conversation: self.conversation,
            });
        }
        if access.is_opened {
            self.doors.open(self.rt, self.place);
        } else {
            self.hasten();
        }
        self.seen = access;
    }
}

impl<R: Wait + Clock, L: Log, K: OpenStream + Drop> Guest<'_, R, L, K> {
    /// The stream waits no longer than its time to open the database is left. Where none is left it is ended, which is told.
    pub fn hasten(&self) {
        if let Some(conversation) = self.doors.hasten(self.rt, self.place) {
            self.log.tell(Notice::Late { conversation });
        }
    }

    // Waits for a second, or until the stream was ended.
    fn wait(&self) {
        for _ in 0..MOMENTS {
            if self.doors.is_closed(self.rt, self.place) {
                return;
            }
            sleep(self.rt, Duration::from_millis(MOMENT));
        }
    }
}
