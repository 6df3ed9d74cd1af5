//! Who is asked.

use call_list::{CallList, is_done};
use command_kit::Ask;
use core_calls::{Answer, CoreCall};
use drda_disk::Disk;
use durable_core::DurableCore;

/// The core, asked for one conversation.
#[derive(Drop)]
pub struct CoreAsker<'a, D: Disk> {
    /// The core.
    pub core: &'a mut DurableCore<D>,
    /// The calls that were asked of it so far; each one more is noted.
    pub calls: &'a mut CallList,
    /// The number that the core knows the conversation by: its place in the row.
    pub conversation: u64,
}

impl<D: Disk> Ask for CoreAsker<'_, D> {
    ghost use Rattle.drda_node.specs.Asking.{asks_of};

    ghost asks = { λ old call answer new. asks_of D.is_modelled D.life old call answer new };

    fn ask(&mut self, call: &CoreCall<'_, '_, '_>) -> Answer {
        serializability::laws::answers_belong_to_calls();
        let answer = self.core.step(self.conversation, call);
        self.calls
            .note(self.conversation, call, &answer, is_done(&answer));
        answer
    }
}
