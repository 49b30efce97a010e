//! Laws of the rule of packed words: functions that do nothing, whose clauses hold of all states that meet the rule.

ghost use Rattle.std.specs.Prelude.{List, ℕ, Some, slice_set, ◌+◌, ◌<◌, ◌≡◌, ◌≤◌};
ghost use mathlib.Core.Option.{some};
ghost use lib.ListN.{get_elem?};
ghost use Rattle.image_defs.specs.{Places.Stands, declared.image.LinkOut.LinkOut};
ghost use Rattle.event_defs.specs.Places.{IsSend, known_of};
ghost use Rattle.atomic_table.specs.Table.{Act, State, stepped};
ghost use Rattle.slot_words.specs.packed.Sound.{ArePassesSound, Kept, PackKey, PackView};
ghost use Rattle.slot_words.specs.{Layout.progress_in, Layout.told_in, Layout.turns_told, Rule.AreDistinct, Rule.AreLooks};

use crate::pack_words::bar::Packed;
use crate::rule::{Key, Law, View};
use atomic_table::TableRule;
use stim_text::Lanes;

/// A law: what the table holds between any two steps is the rule, and nothing else. It does nothing.
pub fn rule_is_kept()
    ensures kept { (key : PackKey) (s : State (Unit {0}) PackView) → ⟦<Law<Packed> as TableRule<(), View<Lanes>, Key<Lanes>>>⟧.holds key s → Kept key s }
    ensures held { (key : PackKey) (s : State (Unit {0}) PackView) → Kept key s → ⟦<Law<Packed> as TableRule<(), View<Lanes>, Key<Lanes>>>⟧.holds key s }
{}

/// A law: between any two steps, all seats have the key's image and lanes; in each lane the places of the passes
/// and the words that a crossbar of one bank has for the lane's stimulus are sound, where the word of each send
/// has the planes of those; no two seats have one port's pass; and the word that the last step of all saw tells what
/// that step saw there.
pub fn rule_is_sound()
    ensures sound { (key : PackKey) (s : State (Unit {0}) PackView)
        → ⟦<Law<Packed> as TableRule<(), View<Lanes>, Key<Lanes>>>⟧.holds key s → ArePassesSound key s }
    ensures distinct { (key : PackKey) (s : State (Unit {0}) PackView)
        → ⟦<Law<Packed> as TableRule<(), View<Lanes>, Key<Lanes>>>⟧.holds key s → AreDistinct s.views }
    ensures looks { (key : PackKey) (s : State (Unit {0}) PackView)
        → ⟦<Law<Packed> as TableRule<(), View<Lanes>, Key<Lanes>>>⟧.holds key s → AreLooks key.image.value s.words s.views }
{}

/// A law: looks are looks. Whatever a step of a seat reads or writes, and whatever is told of it: where the rule
/// holds before it and after it and it is counted among the seat's steps, the word that the seat's `last` names
/// tells after the step what `last` says that it saw there.
pub fn counted_steps_look()
    ensures { (key : PackKey) (s : State (Unit {0}) PackView) (word number id : ℕ) (held : List (ℕ × Unit {0}))
        (old new : PackView) (act : Act (Unit {0})) → ⟦<Law<Packed> as TableRule<(), View<Lanes>, Key<Lanes>>>⟧.holds key s
        → get_elem? s.views id ≡ some old → new.steps ≡ old.steps + 1
        → ⟦<Law<Packed> as TableRule<(), View<Lanes>, Key<Lanes>>>⟧.holds key (stepped s word number id held new act)
        → told_in key.image.value (slice_set s.words word number) new.last.word ≡ new.last.number }
{}

/// A law: whenever a pass may put, each reader of that send has told to have finished the turn before, whose word
/// is overwritten. So it has taken that word, since `tell` asks for all takes of the turn.
pub fn puts_spare_readers()
    ensures { (key : PackKey) (s : State (Unit {0}) PackView) → ⟦<Law<Packed> as TableRule<(), View<Lanes>, Key<Lanes>>>⟧.holds key s
        → (id p i r : ℕ) (v : PackView) (link : LinkOut) → get_elem? s.views id ≡ some v → v.port ≡ Some p
        → IsSend v.image p i link → Stands link.readers r → v.place.turn ≤ known_of v.place r + 1
        → v.place.turn ≤ turns_told (progress_in s.words r) + 1 }
{}
