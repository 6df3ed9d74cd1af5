//! How many bytes replies take. The function does nothing: its contract is the law.

ghost use Rattle.command_kit.specs.Sizes.{OneSegmentHasOneHeader, RepliesAddUp};

/// The bytes of replies add up, and a text of one segment takes six more than it has.
pub fn replies_add_up()
    ensures sum { RepliesAddUp }
    ensures segment { OneSegmentHasOneHeader }
{}
