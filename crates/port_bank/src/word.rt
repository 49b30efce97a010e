//! What a port keeps in a place: one value, or a value in each of thirty lanes.

ghost use Rattle.std.specs.Prelude.{◌≡◌, ◌∷◌, [], ℕ, ◌+◌, ◌*◌, ◌<◌, IfSome};
ghost use Rattle.limits.specs.declared.TheConstants.{LANES};
ghost use Rattle.logic_four.specs.{declared.V4.V4, Values.code_of, Values.value_of, Values.settled, Packed.code_in, Gates.gate_value};
ghost use Rattle.func_table.specs.{declared.table.Table.Table, Entries.entry_for};
ghost use Rattle.lane_planes.specs.{Lanes.lane_of, Forms.IsForm};
ghost use Rattle.net_defs.specs.{declared.stimulus.Stimulus.Stimulus, Valid.IsValidStimulus};
ghost use Rattle.stim_text.specs.Lanes.{lane_stimulus, AreLanes};
ghost use Rattle.std.proofs.Common.{zero-le, suc-le-suc};
ghost use Rattle.stim_text.proofs.lemmas.LaneLemmas.{lane_valid};
ghost use Rattle.port_bank.specs.Lanes.{InEach};

use func_table::Table;
use lane_planes::{
    PairForm, Planes, TableForm, eval_form, form_of, gate_two, in_all_lanes, pair_form,
    settle_planes,
};
use logic_four::{V4, code, packed, settle};
use net_defs::Stimulus;
use stim_text::Lanes;

/// What a port keeps in a place, with a value in each of its lanes: a plain port keeps a `V4`, which is the value of
/// its one lane, and a packed one `Planes`.
pub trait Word: Copy {
    /// How a gate is known whose third and fourth operands are constants.
    type Pair: Copy;

    /// How a table is known.
    type Form: Copy;

    /// A stimulus in each lane.
    type Feed;

    // the number of lanes
    ghost lanes: { ℕ };

    // the value of a lane, counted from 0
    ghost lane: { Self → ℕ → V4 };

    // by this the table is looked up where the third and fourth operands have these values
    ghost is_pair: { Table → V4 → V4 → Self.Pair → Type 0 };

    // by this the table is looked up
    ghost is_form: { Table → Self.Form → Type 0 };

    // the stimulus of a lane, where there are so many columns
    ghost stimulus: { ℕ → Self.Feed → ℕ → Stimulus };

    // these are stimuli for so many columns
    ghost feeds: { ℕ → Self.Feed → Type 0 };

    /// The value in each lane.
    fn of(v: V4) -> Self
        ensures { InEach lanes (λ l. lane result l ≡ v) };

    /// Each lane settled.
    fn settled(self) -> Self
        ensures { InEach lanes (λ l. lane result l ≡ settled (lane self l)) };

    /// How a table is known. This may take long: keep it.
    fn form_of(table: &Table) -> Self::Form
        ensures { is_form table.now result };

    /// How a gate of this table is known whose third and fourth operands have these values, if it is known by less
    /// than its table.
    fn pair_of(form: Self::Form, table: &Table, c: V4, d: V4) -> Option<Self::Pair>
        requires { is_form table.now form }
        ensures { IfSome result (λ pair. is_pair table.now c d pair) };

    /// What a gate that is known so answers in each lane for two operands.
    fn pair(pair: Self::Pair, a: Self, b: Self) -> Self
        ensures { (table : Table) (c d : V4) → is_pair table c d pair → InEach lanes (λ l. lane result l ≡ entry_for table (lane a l) (lane b l) c d) };

    /// What a table that is known so answers in each lane for four operands.
    fn look(form: Self::Form, table: &Table, a: Self, b: Self, c: Self, d: Self) -> Self
        requires { is_form table.now form }
        ensures { InEach lanes (λ l. lane result l ≡ entry_for table.now (lane a l) (lane b l) (lane c l) (lane d l)) };

    // there is a lane
    ghost some: { 0 < lanes };

    // the stimulus of each lane is valid
    ghost valid: { (columns : ℕ) (feed : Self.Feed) → feeds columns feed → (l : ℕ) → l < lanes → IsValidStimulus (stimulus columns feed l) };
}

impl Word for V4 {
    type Pair = u64;

    type Form = ();

    type Feed = Stimulus;

    ghost lanes = { 1 };

    ghost lane = { λ v l. v };

    ghost is_pair = { λ table c d word. (a b : V4) → value_of (code_in word (code_of a + 4 * code_of b)) ≡ entry_for table a b c d };

    ghost is_form = { λ table form. Unit {0} };

    ghost stimulus = { λ columns stimulus l. stimulus };

    ghost feeds = { λ columns stimulus. IsValidStimulus stimulus };

    ghost some = { suc-le-suc zero-le };

    ghost valid = { λ columns stimulus valid l low. valid };

    #[inline]
    fn of(v: V4) -> V4 {
        v
    }

    #[inline]
    fn settled(self) -> V4 {
        settle(self)
    }

    #[inline]
    fn form_of(_table: &Table) {}

    /// The part of one word of the table whose 16 lowest places have the entries for the first two operands.
    #[inline]
    fn pair_of(_form: (), table: &Table, c: V4, d: V4) -> Option<u64> {
        let entry = 16 * code(c) + 64 * code(d);
        Some(table.words[(entry / 32) as usize] >> (2 * (entry % 32)))
    }

    #[inline]
    fn pair(pair: u64, a: V4, b: V4) -> V4 {
        packed::value_in(pair, (code(a) + 4 * code(b)) as usize)
    }

    #[inline]
    fn look(_form: (), table: &Table, a: V4, b: V4, c: V4, d: V4) -> V4 {
        table.eval(a, b, c, d)
    }
}

impl Word for Planes {
    type Pair = PairForm;

    type Form = TableForm;

    type Feed = Lanes;

    ghost lanes = { LANES };

    ghost lane = { lane_of };

    ghost is_pair = { λ table c d form. (a b : V4) → gate_value form.kind (a ∷ b ∷ []) ≡ entry_for table a b c d };

    ghost is_form = { IsForm };

    ghost stimulus = { lane_stimulus };

    ghost feeds = { AreLanes };

    ghost some = { suc-le-suc zero-le };

    ghost valid = { λ columns lanes are l low. lane_valid columns lanes l are };

    #[inline]
    fn of(v: V4) -> Planes {
        in_all_lanes(v)
    }

    #[inline]
    fn settled(self) -> Planes {
        settle_planes(self)
    }

    #[inline]
    fn form_of(table: &Table) -> TableForm {
        form_of(table)
    }

    /// The form of a gate of two operands.
    #[inline]
    fn pair_of(form: TableForm, _table: &Table, _c: V4, _d: V4) -> Option<PairForm> {
        match form {
            TableForm::Gate { kind, operands } => {
                if operands == 2 {
                    Some(pair_form(kind))
                } else {
                    None
                }
            }
            TableForm::Other => None,
        }
    }

    #[inline]
    fn pair(pair: PairForm, a: Planes, b: Planes) -> Planes {
        gate_two(pair, a, b)
    }

    #[inline]
    fn look(form: TableForm, table: &Table, a: Planes, b: Planes, c: Planes, d: Planes) -> Planes {
        eval_form(form, table, a, b, c, d)
    }
}
