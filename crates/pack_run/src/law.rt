//! A law of running packed ports: a function that does nothing, whose clauses hold of all steps.

ghost use Rattle.std.specs.Prelude.{List, Some, slice_set, true, ℕ, ◌<◌, ◌≡◌};
ghost use mathlib.Core.Option.{some};
ghost use lib.ListN.{get_elem?};
ghost use Rattle.limits.specs.declared.TheConstants.{LANES};
ghost use Rattle.event_defs.specs.{Steps.CoreState, declared.place.CoreStep.TheVariants.Done, declared.place.CoreStep.TheVariants.NotYet};
ghost use Rattle.event_defs.specs.declared.place.Event.{Event};
ghost use Rattle.atomic_table.specs.{Seated.TableId, Table.Act, Table.State, Table.stepped};
ghost use Rattle.port_run.specs.Core.{is_look};
ghost use Rattle.slot_words.specs.packed.Sound.{Kept, PackKey, PackView};
ghost use Rattle.pack_run.specs.Core.{IsCoreEvent, IsCoreStep, IsStateOf, pass_in};
ghost use Rattle.pack_run.specs.{Pairs.HasMadeAll, Steps.IsEvent, Steps.IsWait};

/// A law: each step of a packed port is, in each lane, the step of a core of all turns on a sound state: the same
/// event, and what it read or wrote; a wait; or none, where all turns are made. Between any two steps of the seats of
/// a packed crossbar, as its rule says (`slot_words::pack_words::law::rule_is_kept`), its words and the places of its passes are
/// in each lane a sound state of a core that runs the lane's stimulus with one bank. Take a step of a seat by which
/// its pass makes an event; where the event looks, the step leaves the words as they are. Then the core's step of the
/// port makes the same event in each lane's state, and the core's state afterwards is the lane's of the crossbar after
/// the step. In it the word that the event read or wrote says in the lane what the pass found or left there. Where a
/// pass has to wait, the core's step of the port has to wait in each lane's state, and where it has made all turns,
/// the port is done in each.
pub fn steps_are_events_of_sound_states()
    ensures state { (key : PackKey) (s : State (Unit {0}) PackView) (l : ℕ) → l < LANES → Kept key s
        → (state : CoreState) × IsStateOf key s l state }
    ensures event { (key : PackKey) (s : State (Unit {0}) PackView) (word number id p l : ℕ) (held : List (ℕ × Unit {0}))
        (old new : PackView) (act : Act (Unit {0})) (table : TableId) (event : Event) (state : CoreState)
        → l < LANES → Kept key s → get_elem? s.views id ≡ some old → old.port ≡ Some p
        → Kept key (stepped s word number id held new act)
        → IsEvent (pass_in table p old) event (pass_in table p new)
        → (is_look event ≡ true → slice_set s.words word number ≡ s.words) → IsStateOf key s l state
        → (core : IsCoreEvent l (pass_in table p old) event (pass_in table p new) state)
        × IsStateOf key (stepped s word number id held new act) l core.after }
    ensures wait { (key : PackKey) (s : State (Unit {0}) PackView) (word number id p l : ℕ) (held : List (ℕ × Unit {0}))
        (old new : PackView) (act : Act (Unit {0})) (table : TableId) (state : CoreState)
        → l < LANES → Kept key s → get_elem? s.views id ≡ some old → old.port ≡ Some p
        → Kept key (stepped s word number id held new act)
        → IsWait (pass_in table p old) (pass_in table p new)
        → slice_set s.words word number ≡ s.words → IsStateOf key s l state
        → IsCoreStep l (pass_in table p old) state NotYet state }
    ensures done { (key : PackKey) (s : State (Unit {0}) PackView) (id p l : ℕ) (old : PackView) (table : TableId)
        (state : CoreState) → l < LANES → Kept key s → get_elem? s.views id ≡ some old → old.port ≡ Some p
        → HasMadeAll (pass_in table p old) → IsStateOf key s l state
        → IsCoreStep l (pass_in table p old) state Done state }
{}
