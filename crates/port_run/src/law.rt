//! Laws of running ports: functions that do nothing, whose clauses hold of all steps.

ghost use Rattle.std.specs.Prelude.{List, Some, slice_set, true, ℕ, ◌≡◌, ◌≤◌};
ghost use mathlib.Core.Option.{some};
ghost use lib.ListN.{get_elem?};
ghost use Rattle.image_defs.specs.{Places.IsPort, declared.image.PortImage.PortImage};
ghost use Rattle.event_defs.specs.{Next.IsNext, Steps.CoreState, declared.place.Action.Action};
ghost use Rattle.event_defs.specs.declared.place.{CoreStep.TheVariants.Done, CoreStep.TheVariants.NotYet, Event.Event};
ghost use Rattle.atomic_table.specs.{Seated.TableId, Table.Act, Table.State, Table.stepped};
ghost use Rattle.slot_words.specs.plain.{Passes.IsFit, Passes.PassView, Sound.Kept, Sound.PlainKey, Sound.PlainView, Words.turns_of};
ghost use Rattle.port_run.specs.Core.{IsCoreEvent, IsCoreStep, IsStateOf, Shows, StandsIn, is_look, pass_in};
ghost use Rattle.port_run.specs.{Pairs.HasMade, Steps.IsEvent, Steps.IsWait, Steps.value_there};

/// A law: a step of a block is the core's, also that of a core that goes on after the block. Take any state
/// of a core that has the block's last turn or a later one as its last turn, in which the port stands where it
/// stood, and in which the word that it looked at, if it looked, has the number that it found. Then the
/// core's step of that port makes the same event, after which the port stands at the same place, and the word
/// of the step has the same number, which a Put or a Tell wrote; or it has to wait. Where the port has made
/// all turns, it is done in the core too.
pub fn steps_are_the_cores()
    ensures event { (until turns : ℕ) (old new : PassView) (event : Event) (state : CoreState) → until ≤ turns
        → IsFit old → IsEvent until old event new → StandsIn old state
        → (is_look event ≡ true → Shows old state new.last) → IsCoreEvent turns old event new state }
    ensures wait { (until turns : ℕ) (old new : PassView) (state : CoreState) → until ≤ turns
        → IsFit old → IsWait until old new → StandsIn old state
        → Shows old state new.last → IsCoreStep turns old state NotYet state }
    ensures done { (turns : ℕ) (pass : PassView) (state : CoreState) → IsFit pass → HasMade turns pass → StandsIn pass state
        → IsCoreStep turns pass state Done state }
{}

/// A law: each step of a port is one event of a core of all turns on a sound state. Between any two steps of
/// the seats of a crossbar, as its rule says (`slot_words::law::rule_is_kept`), its words and the places of its
/// passes are a sound state of a core. Take a step of a seat by which its pass makes an event, as a step of a
/// running port does in each of its blocks; where the event looks, the step leaves the words as they are. Then
/// the core's step of the port makes the same event in that state, and the core's state afterwards is that of
/// the crossbar after the step. Where a pass has to wait, the core's step of the port has to wait in that
/// state, though the pass may have learnt there a greater number of turns.
pub fn steps_are_events_of_sound_states()
    ensures state { (key : PlainKey) (s : State (Unit {0}) PlainView) → Kept key s
        → (state : CoreState) × IsStateOf key s state }
    ensures event { (key : PlainKey) (s : State (Unit {0}) PlainView) (word number id p : ℕ) (held : List (ℕ × Unit {0}))
        (old new : PlainView) (act : Act (Unit {0})) (table : TableId) (until : ℕ) (event : Event) (state : CoreState)
        → until ≤ turns_of old.image old.feed
        → Kept key s → get_elem? s.views id ≡ some old → old.port ≡ Some p
        → Kept key (stepped s word number id held new act)
        → IsEvent until (pass_in table p old) event (pass_in table p new)
        → (is_look event ≡ true → slice_set s.words word number ≡ s.words) → IsStateOf key s state
        → (core : IsCoreEvent (turns_of old.image old.feed) (pass_in table p old) event (pass_in table p new) state)
        × IsStateOf key (stepped s word number id held new act) core.after }
    ensures wait { (key : PlainKey) (s : State (Unit {0}) PlainView) (word number id p : ℕ) (held : List (ℕ × Unit {0}))
        (old new : PlainView) (act : Act (Unit {0})) (table : TableId) (until : ℕ) (state : CoreState)
        → until ≤ turns_of old.image old.feed
        → Kept key s → get_elem? s.views id ≡ some old → old.port ≡ Some p
        → Kept key (stepped s word number id held new act)
        → IsWait until (pass_in table p old) (pass_in table p new)
        → slice_set s.words word number ≡ s.words → IsStateOf key s state
        → IsCoreStep (turns_of old.image old.feed) (pass_in table p old) state NotYet state }
{}

/// A law: a step that has to wait leaves the next event, though an Ask may have learnt a greater number of
/// turns.
pub fn waits_keep_the_next_event()
    ensures { (until : ℕ) (old new : PassView) (port_image : PortImage) (action : Action) → IsFit old → IsWait until old new
        → IsPort old.image old.port port_image → IsNext port_image old.place old.banks until (value_there old) action
        → IsNext port_image new.place new.banks until (value_there new) action }
{}
