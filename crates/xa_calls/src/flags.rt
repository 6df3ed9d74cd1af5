//! The flags of an XA call.

ghost use Rattle.std.specs.Prelude.{◌≡◌, ◌≢◌, IfSome, IfNone};
ghost use Rattle.xa_calls.specs.Numbers.{flags_number, flags_of};

/// The XAFLAGS that some call takes (C193 chapter 4, "Flag Definitions"), with their numbers. No call here takes two
/// at once.
#[derive(Clone, Copy, Debug, PartialEq, Eq)]
pub enum Flags {
    /// TMNOFLAGS.
    NoFlags = 0,
    /// TMJOIN: the caller joins a branch that is there.
    Join = 0x0020_0000,
    /// TMSUSPEND: the caller leaves the branch for a time.
    Suspend = 0x0200_0000,
    /// TMSUCCESS: the caller's work on the branch is done.
    Success = 0x0400_0000,
    /// TMRESUME: the caller goes on with a branch.
    Resume = 0x0800_0000,
    /// TMFAIL: the caller's work failed, and the branch can only be rolled back.
    Fail = 0x2000_0000,
    /// TMONEPHASE: the branch is committed without having been prepared.
    OnePhase = 0x4000_0000,
}

impl Flags {
    /// The ones with this number; `None` where no one flag, nor the absence of all, has it.
    pub fn from_number(number: u32) -> Option<Flags>
        ensures value { result ≡ flags_of number }
        ensures found { IfSome result (λ flags. flags_number flags ≡ number) }
        ensures none { IfNone result ((flags : Flags) → flags_number flags ≢ number) }
    {
        Some(match number {
            0 => Flags::NoFlags,
            0x0020_0000 => Flags::Join,
            0x0200_0000 => Flags::Suspend,
            0x0400_0000 => Flags::Success,
            0x0800_0000 => Flags::Resume,
            0x2000_0000 => Flags::Fail,
            0x4000_0000 => Flags::OnePhase,
            _ => return None,
        })
    }

    /// Their number.
    pub fn number(self) -> u32
        ensures { result ≡ flags_number self }
    {
        self as u32
    }
}
