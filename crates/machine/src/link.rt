ghost use Rattle.std.specs.Prelude.{◌^◌, ◌-◌, [], ◌∷◌, IsTrue};
ghost use Rattle.machine.specs.declared.link_call.LastCall.TheVariants.{Room, Take};
ghost use Rattle.machine.specs.Link.{Shown, HasRoom, SentBelow, IsAsked, IsSent};

use crate::link_call::Taken;
use srmt_base::Word;

/// One side's end of what leads to the other side and back.
pub trait Link {
    ghost shows: { Self → Shown };

    /// Whether so many words have room, or the other side is gone.
    fn room(&mut self, words: u8) -> bool
        ensures room { IsTrue result → HasRoom words (shows self.new) }
        ensures asked { IsAsked (Room words result) (shows self.old) (shows self.new) };

    /// Sends a word. It is dropped where the other side is known to be gone, and nowhere else.
    fn send(&mut self, word: Word)
        requires room { HasRoom 1 (shows self.old) }
        requires countable { SentBelow (2 ^ 63 - 1) (shows self.old) }
        ensures sent { IsSent (word ∷ []) (shows self.old) (shows self.new) };

    /// Takes the next word, if one is there.
    fn take(&mut self) -> Taken
        ensures asked { IsAsked (Take result) (shows self.old) (shows self.new) };
}
