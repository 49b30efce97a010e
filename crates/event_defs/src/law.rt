//! Laws of events: functions that do nothing, whose clauses hold of all well-formed images,
//! stimuli, numbers of banks and orders.

ghost use Rattle.std.specs.Prelude.{List, length, ℕ, ◌*◌, ◌+◌, ◌<◌, ◌≡◌, ◌≤◌, ◌⊎◌};
ghost use Rattle.logic_four.specs.{Values.code_of, declared.V4.V4};
ghost use Rattle.net_defs.specs.declared.stimulus.Stimulus.{Stimulus};
ghost use Rattle.image_defs.specs.{Frames.image_value, Places.Each, Places.IsPort, Places.Stands, WellFormed.IsWellFormed, declared.image.Image.Image};
ghost use Rattle.image_defs.specs.declared.image.PortImage.{PortImage};
ghost use Rattle.event_defs.specs.Steps.{AllDone, AllIdle, AreFirstSteps, AreRounds, AreSteps, CoreState, IsStep, Puts, Takes, first_state, rows_done};
ghost use Rattle.event_defs.specs.{Counts.events, Counts.events_left, Counts.moved_in, Foremost.IsForemost, Linked.AreLinkedAlike, Next.IsNext, Places.start};
ghost use Rattle.event_defs.specs.{Sound.IsSound, declared.place.Action.Action, declared.place.CoreStep.CoreStep, declared.place.CoreStep.TheVariants.Moved};
ghost use Rattle.event_defs.specs.declared.place.{Event.Event, Place.Place};

/// A law: what a port does next is one.
pub fn one_next()
    ensures { (image : Image) (p : ℕ) (port : PortImage) (place : Place) (banks until : ℕ)
        (value : ℕ → V4) (one other : Action)
        → IsWellFormed image → IsPort image p port
        → IsNext port place banks until value one → IsNext port place banks until value other
        → one ≡ other }
{}

/// A law: whatever the order of the steps, the state is sound.
pub fn steps_are_sound()
    ensures { (image : Image) (stimulus : Stimulus) (banks until : ℕ) (order : List ℕ)
        (answers : List CoreStep) (state : CoreState)
        → IsWellFormed image → 1 ≤ banks
        → AreFirstSteps image stimulus banks until order answers state
        → IsSound image stimulus banks until state }
{}

/// A law: in a sound state a Take that moves reads its sender's value of this turn.
pub fn takes_find_this_turn()
    ensures { (image : Image) (stimulus : Stimulus) (banks until p : ℕ) (port : PortImage)
        (slot : ℕ) (old new : CoreState)
        → IsWellFormed image → 1 ≤ banks → IsPort image p port
        → IsSound image stimulus banks until old
        → (take : Takes image banks p port old slot new)
        → take.x ≡ 4 * (old.place p).turn
        + code_of (image_value image stimulus (old.place p).turn take.reads.link.sender slot) }
{}

/// A law: in a sound state a Put comes when every reader has finished the turn whose value it
/// overwrites, which is as many turns before as there are banks.
pub fn puts_spare_readers()
    ensures { (image : Image) (stimulus : Stimulus) (banks until p : ℕ) (port : PortImage)
        (slot : ℕ) (old new : CoreState)
        → IsWellFormed image → 1 ≤ banks → IsPort image p port
        → IsSound image stimulus banks until old
        → (put : Puts image banks p port old stimulus slot new)
        → (r : ℕ) → Stands put.next.link.readers r
        → (old.place p).turn ≤ old.finished r + banks }
{}

/// A law: it is never stuck. In a sound state in which no port moves, all ports are done.
pub fn some_port_moves()
    ensures { (image : Image) (stimulus : Stimulus) (banks until : ℕ) (state : CoreState)
        → IsWellFormed image → 1 ≤ banks → IsSound image stimulus banks until state
        → AllIdle image banks until state → AllDone image until state }
{}

/// A law: which port moves. Unless all are done there is a foremost port, which is in the least turn,
/// and has there its next event in the least slot, an Ask or a Put before a Take, and a Tell last; and
/// each step of such a port moves.
pub fn foremost_moves()
    ensures some { (image : Image) (stimulus : Stimulus) (banks until : ℕ) (state : CoreState)
        → IsWellFormed image → 1 ≤ banks → IsSound image stimulus banks until state
        → AllDone image until state
        ⊎ ((p : ℕ) × (port : PortImage) × (event : Event) × (new : CoreState)
        × IsForemost image until state p port
        × IsStep image stimulus banks until p port state (Moved event) new) }
    ensures each { (image : Image) (stimulus : Stimulus) (banks until : ℕ) (state : CoreState)
        (p : ℕ) (port : PortImage) (answer : CoreStep) (new : CoreState)
        → IsWellFormed image → 1 ≤ banks → IsSound image stimulus banks until state
        → IsForemost image until state p port
        → IsStep image stimulus banks until p port state answer new
        → (event : Event) × (answer ≡ Moved event) }
{}

/// A law: before the first event as many events are left as a run has, and each step that moves
/// leaves fewer.
pub fn events_are_left()
    ensures start { (image : Image) (banks until : ℕ) → IsWellFormed image → 1 ≤ banks
        → events_left image banks until (λ p. start (length image.ports))
        ≡ events image banks until }
    ensures falls { (image : Image) (stimulus : Stimulus) (banks until : ℕ) (order : List ℕ)
        (old : CoreState) (answers : List CoreStep) (new : CoreState)
        → IsWellFormed image → 1 ≤ banks → IsSound image stimulus banks until old
        → AreSteps image stimulus banks until order old answers new
        → moved_in answers + events_left image banks until new.place
        ≤ events_left image banks until old.place }
{}

/// A law: a run moves at most as often as it has events, whatever the order of its steps, and with
/// one bank a run to its end exactly so often.
pub fn events_of_a_run()
    ensures most { (image : Image) (stimulus : Stimulus) (banks until : ℕ) (order : List ℕ)
        (answers : List CoreStep) (state : CoreState)
        → IsWellFormed image → 1 ≤ banks
        → AreFirstSteps image stimulus banks until order answers state
        → moved_in answers ≤ events image banks until }
    ensures exact { (image : Image) (stimulus : Stimulus) (until : ℕ) (order : List ℕ)
        (answers : List CoreStep) (state : CoreState)
        → IsWellFormed image
        → AreFirstSteps image stimulus 1 until order answers state → AllDone image until state
        → moved_in answers ≡ events image 1 until }
{}

/// A law: after as many rounds as a run has events, all ports are done.
pub fn rounds_suffice()
    ensures { (image : Image) (stimulus : Stimulus) (banks until : ℕ) (state : CoreState)
        → IsWellFormed image → 1 ≤ banks
        → AreRounds image stimulus banks until (events image banks until)
        (first_state (length image.ports)) state
        → AllDone image until state }
{}

/// A law: the links of an image decide what comes of any steps. Two images whose ports send and
/// receive alike come to the same places and answers, whatever they compute and whatever their
/// stimuli. So what comes of the steps of one image is one, too.
pub fn links_decide()
    ensures { (one other : Image) (stimulus other_stimulus : Stimulus) (banks until : ℕ)
        (order : List ℕ) (answers other_answers : List CoreStep) (state other_state : CoreState)
        → IsWellFormed one → IsWellFormed other → AreLinkedAlike one other → 1 ≤ banks
        → AreFirstSteps one stimulus banks until order answers state
        → AreFirstSteps other other_stimulus banks until order other_answers other_state
        → (answers ≡ other_answers) × (state.place ≡ other_state.place)
        × (rows_done one state ≡ rows_done other other_state) }
{}

/// A law: there are steps for each order of ports.
pub fn steps_exist()
    ensures { (image : Image) (stimulus : Stimulus) (banks until : ℕ) (order : List ℕ)
        → IsWellFormed image → 1 ≤ banks → Each (λ p. p < length image.ports) order
        → (answers : List CoreStep) × (state : CoreState)
        × AreFirstSteps image stimulus banks until order answers state }
{}
