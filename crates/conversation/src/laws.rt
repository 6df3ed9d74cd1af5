//! Laws of the definitions. The functions do nothing: their contracts are the laws.

ghost use Rattle.conversation.specs.Laws.{AsksOnlyWhenOpened, BrokenChainsAreSilent, FirstRepliesAreOneTree, IsOneTree, OnlyFailureCloses, OnlyUnusableAnswersClose, OpenedBehindACheck, RefusalsKeepTheStage, RepliesAreTrees};
ghost use Rattle.conversation.specs.Replies.{fault_bytes};
ghost use Rattle.dss_frames.specs.declared.fault.FrameFault.{FrameFault};

use command_kit::Ask;

/// No command closes a conversation but one that is answered by AGNPRMRM alone, in no chain. What else closes
/// one is a fault of the framing.
pub fn only_failure_closes<A: Ask>()
    ensures { OnlyFailureCloses A.asks }
{}

/// And it has asked a call and got an answer that it can't use: neither one of that call nor a refusal, nor that
/// there was no memory or no room.
pub fn only_unusable_answers_close<A: Ask>()
    ensures { OnlyUnusableAnswersClose A.asks }
{}

/// A command that is refused leaves the stage, what was agreed on and what is kept for statements, and asks
/// nothing, answered or out of memory.
pub fn refusals_keep_the_stage<A: Ask>()
    ensures { RefusalsKeepTheStage A.asks }
{}

/// Nothing is asked, and nothing is kept for statements, before the database is opened.
pub fn asks_only_when_opened<A: Ask>()
    ensures { AsksOnlyWhenOpened A.asks }
{}

/// The commands of a broken chain send nothing, ask nothing and change nothing up to its end, which mends it.
pub fn broken_chains_are_silent<A: Ask>()
    ensures { BrokenChainsAreSilent A.asks }
{}

/// From a new conversation the database is opened only behind a SECCHK that was answered with code 00.
pub fn opened_behind_a_check<A: Ask>()
    ensures { OpenedBehindACheck A.asks }
{}

/// What is sent for a command, whichever it is and whatever becomes of it, is DSSs one after the other, each as
/// it is written, with the correlator of the request and chained to the next one. The contents of each are one
/// object: a reply message, another container with trees of objects in it, or SQLCARD, SQLDARD, QRYDSC or QRYDTA
/// with its data. For a command that is refused, or comes before those of SQL, it is nothing or one DSS with one
/// container; and one such DSS answers a fault of the framing.
pub fn replies_are_trees<A: Ask>()
    ensures commands { RepliesAreTrees A.asks }
    ensures before_sql { FirstRepliesAreOneTree A.asks }
    ensures faults { (fault : FrameFault) → IsOneTree (fault_bytes fault) }
{}
