//! Laws of the rule of a crossbar: functions that do nothing, whose clauses hold of all states that meet it.

ghost use Rattle.std.specs.Prelude.{List, ℕ, Some, slice_set, ◌+◌, ◌≡◌, ◌≤◌};
ghost use mathlib.Core.Option.{some};
ghost use lib.ListN.{get_elem?};
ghost use Rattle.image_defs.specs.{Places.Stands, declared.image.LinkOut.LinkOut};
ghost use Rattle.event_defs.specs.Places.{IsSend, known_of};
ghost use Rattle.atomic_table.specs.Table.{Act, State, stepped};
ghost use Rattle.slot_words.specs.plain.Sound.{ArePassesSound, Kept, PlainKey, PlainView};
ghost use Rattle.slot_words.specs.{Layout.progress_in, Layout.told_in, Layout.turns_told, Rule.AreDistinct, Rule.AreLooks};

use crate::crossbar::Plain;
use crate::rule::{Key, Law, View};
use atomic_table::TableRule;
use net_defs::Stimulus;

/// A law: what the table holds between any two steps is the rule by its four parts, and nothing else. It does
/// nothing.
pub fn rule_is_kept()
    ensures kept { (key : PlainKey) (s : State (Unit {0}) PlainView) → ⟦<Law<Plain> as TableRule<(), View<Stimulus>, Key<Stimulus>>>⟧.holds key s → Kept key s }
    ensures held { (key : PlainKey) (s : State (Unit {0}) PlainView) → Kept key s → ⟦<Law<Plain> as TableRule<(), View<Stimulus>, Key<Stimulus>>>⟧.holds key s }
{}

/// A law: between any two steps, all seats have the key's image, stimulus and banks, the words and the
/// places of the passes are sound, a port stands at its start and its word is unclaimed where nobody has
/// its pass, no two seats have one port's pass, and the word that the last step of all saw tells what
/// that step saw there.
pub fn rule_is_sound()
    ensures sound { (key : PlainKey) (s : State (Unit {0}) PlainView)
        → ⟦<Law<Plain> as TableRule<(), View<Stimulus>, Key<Stimulus>>>⟧.holds key s → ArePassesSound key s }
    ensures distinct { (key : PlainKey) (s : State (Unit {0}) PlainView)
        → ⟦<Law<Plain> as TableRule<(), View<Stimulus>, Key<Stimulus>>>⟧.holds key s → AreDistinct s.views }
    ensures looks { (key : PlainKey) (s : State (Unit {0}) PlainView)
        → ⟦<Law<Plain> as TableRule<(), View<Stimulus>, Key<Stimulus>>>⟧.holds key s → AreLooks key.image.value s.words s.views }
{}

/// A law: looks are looks. Whatever a step of a seat reads or writes, and whatever is told of it: where
/// the rule holds before it and after it and it is counted among the seat's steps, the word that the
/// seat's `last` names tells after the step what `last` says that it saw there.
pub fn counted_steps_look()
    ensures { (key : PlainKey) (s : State (Unit {0}) PlainView) (word number id : ℕ) (held : List (ℕ × Unit {0}))
        (old new : PlainView) (act : Act (Unit {0})) → ⟦<Law<Plain> as TableRule<(), View<Stimulus>, Key<Stimulus>>>⟧.holds key s
        → get_elem? s.views id ≡ some old → new.steps ≡ old.steps + 1
        → ⟦<Law<Plain> as TableRule<(), View<Stimulus>, Key<Stimulus>>>⟧.holds key (stepped s word number id held new act)
        → told_in key.image.value (slice_set s.words word number) new.last.word ≡ new.last.number }
{}

/// A law: whenever a pass may put, each reader of that send has told to have finished the turn whose word
/// is overwritten, which is as many turns before as there are banks. So it has taken that word, since
/// `tell` asks for all takes of the turn.
pub fn puts_spare_readers()
    ensures { (key : PlainKey) (s : State (Unit {0}) PlainView) → ⟦<Law<Plain> as TableRule<(), View<Stimulus>, Key<Stimulus>>>⟧.holds key s
        → (id p i r : ℕ) (v : PlainView) (link : LinkOut) → get_elem? s.views id ≡ some v → v.port ≡ Some p
        → IsSend v.image p i link → Stands link.readers r → v.place.turn ≤ known_of v.place r + v.banks
        → v.place.turn ≤ turns_told (progress_in s.words r) + v.banks }
{}
