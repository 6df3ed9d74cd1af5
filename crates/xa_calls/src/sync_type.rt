//! What a SYNCCTL asks of the XA manager.

ghost use Rattle.std.specs.Prelude.{◌≡◌, ◌≢◌, IfSome, IfNone};
ghost use Rattle.xa_calls.specs.Numbers.{sync_number, sync_type_of};

/// The SYNCTYPE of a SYNCCTL (DRDA V5 volume 3, SYNCTYPE), with its number. The numbers are this
/// server's profile.
#[derive(Clone, Copy, Debug, PartialEq, Eq)]
pub enum SyncType {
    /// `xa_prepare`.
    Prepare = 0x01,
    /// `xa_commit`.
    Commit = 0x04,
    /// `xa_forget`.
    Forget = 0x06,
    /// `xa_rollback`.
    RollBack = 0x07,
    /// `xa_start`.
    Start = 0x09,
    /// `xa_end`.
    End = 0x0B,
    /// `xa_recover`.
    Recover = 0x0C,
}

impl SyncType {
    /// The one with this number; `None` where no one has it.
    pub fn from_number(number: u8) -> Option<SyncType>
        ensures value { result ≡ sync_type_of number }
        ensures found { IfSome result (λ sync. sync_number sync ≡ number) }
        ensures none { IfNone result ((sync : SyncType) → sync_number sync ≢ number) }
    {
        Some(match number {
            0x01 => SyncType::Prepare,
            0x04 => SyncType::Commit,
            0x06 => SyncType::Forget,
            0x07 => SyncType::RollBack,
            0x09 => SyncType::Start,
            0x0B => SyncType::End,
            0x0C => SyncType::Recover,
            _ => return None,
        })
    }

    /// Its number.
    pub fn number(self) -> u8
        ensures { result ≡ sync_number self }
    {
        self as u8
    }
}
