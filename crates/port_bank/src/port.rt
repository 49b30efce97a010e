//! What a port of any kind does in its run.

ghost use Rattle.std.specs.Prelude.{◌≡◌, ℕ, Option};
ghost use Rattle.image_defs.specs.Ports.{View, after_begin, after_execute, after_receive, after_end, value_in, CanBegin, CanExecute, CanReceive, CanEnd};
ghost use Rattle.port_bank.specs.Runs.{CanRun, HasRun, HasRoom, IsLastValue};
ghost use Rattle.port_bank.specs.Words.{InEachLane, InEachLaneOf, AreValues};

use crate::word::Word;

/// A port in its run, of whatever kind: it executes its items one after another, in slot order. The kinds say the same
/// of their own calls; through this they are one for what runs ports of all kinds.
pub trait Port<W: Word> {
    // how far it has come
    ghost seen: { Self → View W.Feed };

    // of the host how many rows it keeps at most, and how many it has given up
    ghost rows: { Self → Option (ℕ × ℕ) };

    /// Begins a turn.
    fn begin_turn(&mut self)
        requires { InEachLane W.Word (λ view. CanBegin view) (seen self.old) }
        ensures view { seen self.new ≡ after_begin (seen self.old) }
        ensures rows { rows self.new ≡ rows self.old };

    /// Executes the item in a slot, and answers its value.
    fn execute(&mut self, slot: u32) -> W
        requires { InEachLane W.Word (λ view. CanExecute view slot) (seen self.old) }
        ensures value { AreValues W.Word result (λ view. value_in view slot) (seen self.old) }
        ensures view { seen self.new ≡ after_execute (seen self.old) }
        ensures rows { rows self.new ≡ rows self.old };

    /// Receives the value that is sent in a slot.
    fn receive(&mut self, slot: u32, v: W)
        requires { InEachLaneOf W.Word v (λ view x. CanReceive view slot x) (seen self.old) }
        ensures view { seen self.new ≡ after_receive (seen self.old) }
        ensures rows { rows self.new ≡ rows self.old };

    /// Ends the turn.
    fn end_turn(&mut self)
        requires end { InEachLane W.Word (λ view. CanEnd view) (seen self.old) }
        requires room { HasRoom (rows self.old) (seen self.old) }
        ensures view { seen self.new ≡ after_end (seen self.old) }
        ensures rows { rows self.new ≡ rows self.old };

    /// Executes the items from number `from` to below number `to`, where `slots` has the slots of all items, and
    /// answers the value of the last one executed in this turn; that was `last`.
    fn run(&mut self, slots: &[u32], from: u32, to: u32, last: W) -> W
        requires can { InEachLane W.Word (λ view. CanRun view slots.now from to) (seen self.old) }
        requires last { InEachLaneOf W.Word last (λ view v. IsLastValue view v) (seen self.old) }
        ensures run { HasRun (seen self.old) (seen self.new) to }
        ensures last { InEachLaneOf W.Word result (λ view v. IsLastValue view v) (seen self.new) }
        ensures rows { rows self.new ≡ rows self.old }
    {
        let mut word = last;
        'items: for i in from..to {
            word = self.execute(slots[i as usize]);
        }
        word
    }
}
