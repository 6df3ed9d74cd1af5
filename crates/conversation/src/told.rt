//! What was told of what a conversation keeps.

ghost use Rattle.std.specs.Prelude.{◌≡◌};

use command_kit::Ask;

/// So many bytes of a command are kept untold, and as many that come at once behind them.
pub(crate) const UNTOLD: usize = 65_536;

/// Of more the bytes are told by so many.
const STEP: usize = 262_144;

/// How many bytes whoever is asked was told that a conversation keeps: of the command under way, where that is long, and of rows for its
/// open cursors. No clause speaks of it: what is refused then is refused as memory is.
#[derive(Clone, Copy)]
pub(crate) struct Told {
    command: usize,
    rows: usize,
    /// No more of the command under way may be kept.
    pub(crate) is_refused: bool,
    /// Something was told, or a cursor is being opened: behind the command it is to be settled.
    pub(crate) is_due: bool,
}

impl Told {
    /// Nothing was told.
    pub(crate) fn nothing() -> Told {
        Told {
            command: 0,
            rows: 0,
            is_refused: false,
            is_due: false,
        }
    }

    /// Whether the command under way is long.
    pub(crate) fn is_long(&self) -> bool {
        self.command > 0
    }

    /// So many bytes of a command are kept, and more are to come.
    #[inline(always)]
    pub(crate) fn go_on<A: Ask>(&mut self, asker: &mut A, kept: usize)
        ensures { asker.new ≡ asker.old }
    {
        if kept > UNTOLD {
            self.grow(asker, kept);
        }
    }

    // So many bytes of a long command are kept. As many as may come at once are told before they come.
    fn grow<A: Ask>(&mut self, asker: &mut A, kept: usize)
        ensures { asker.new ≡ asker.old }
    {
        self.is_due = true;
        let coming = kept.saturating_add(UNTOLD);
        if coming > self.command {
            let command = coming.saturating_add(STEP) / STEP * STEP;
            if asker.keep(command.saturating_add(self.rows)) {
                self.command = command;
                self.is_refused = false;
            } else {
                self.is_refused = true;
            }
        }
    }

    /// The command has ended, and so many bytes of rows are kept. A query was answered rows for which nobody was told.
    pub(crate) fn end<A: Ask>(&mut self, asker: &mut A, rows: usize, is_query: bool)
        ensures { asker.new ≡ asker.old }
    {
        self.is_refused = false;
        self.is_due = rows > 0;
        if is_query || self.command > 0 || self.rows != rows {
            self.command = 0;
            self.rows = rows;
            let _ = asker.keep(rows);
        }
    }
}
