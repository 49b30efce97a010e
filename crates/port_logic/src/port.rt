//! A logic processor in its run.

ghost use Rattle.std.specs.Prelude.{◌≡◌, ◌<◌, ℕ, IfOk, None};
ghost use Rattle.image_defs.specs.Ports.{lane_port, at_first, after_begin, after_execute, after_receive, after_end, value_in, CanBegin, CanExecute, CanReceive, CanEnd};
ghost use Rattle.image_defs.specs.WellFormed.{IsWellFormed, IsPortOf, IsLogic};
ghost use Rattle.port_bank.specs.{Flat.place_count, Words.InEachLane, Words.InEachLaneOf, Words.AreValues};
ghost use Rattle.port_logic.specs.code.{Ops.FitsOp, Tasks.IsAnswer};

use crate::op::{Op, forms_of, ops_of};
use func_table::Table;
use image_defs::{Image, Task, Work};
use port_bank::{Bank, Port, Word};
use seen_list::{List, Memory};
use std::alloc::Global;
use std::marker::Model;

/// A logic processor in its run. A contract sees whose image and stimulus it runs and how far it
/// has come.
///
/// The plain one is `LogicPort<V4>`. It has one lane, whose port is the port itself and whose value of `v` is `v`, so of
/// it the contract of `execute` says: it may be called where `CanExecute self.old slot`, and
/// `result ≡ value_in self.old slot`. `LogicPort<Planes>` is the packed one: of it the contract says the same of the plain
/// port of each of thirty lanes, which go step by step together.
#[derive(Drop)]
pub struct LogicPort<'a, W: Word> {
    bank: Bank<'a, W>,
    tables: &'a [Table],
    tasks: &'a [Task],
    ops: List<Op<W::Pair, W::Form>>,
}

impl<'a, W: Word> Model for LogicPort<'a, W> {
    ghost use Rattle.image_defs.specs.Ports.{View};

    ghost Value = { View W.Feed };

    ghost use Rattle.port_logic.specs.Tasks.{IsReady};

    ghost view = { λ a. a.bank };

    ghost invariant = { λ a. IsReady W.is_pair W.is_form a.bank a.tables.now a.tasks.now a.ops };
}

/// In each lane the value of the item in a slot whose task is laid flat so.
#[inline]
fn answer<W: Word>(bank: &Bank<'_, W>, tables: &[Table], op: Op<W::Pair, W::Form>, slot: u32) -> W
    requires slot { slot < bank.now.image.slots }
    requires fits { FitsOp W.is_form tables.now (place_count bank.now.image.slots) op }
    ensures { (l : ℕ) → l < W.lanes → IsAnswer W.is_pair W.is_form (lane_port W.stimulus l bank.now) tables.now op slot (W.lane result l) }
{
    match op {
        Op::Pair { pair, a, b } => {
            let a = bank.read(a);
            let b = bank.read(b);
            W::pair(pair, a, b)
        }
        Op::Look {
            form,
            table,
            a,
            b,
            c,
            d,
        } => {
            let a = bank.read(a);
            let b = bank.read(b);
            let c = bank.read(c);
            let d = bank.read(d);
            W::look(form, &tables[table as usize], a, b, c, d)
        }
        Op::Keep { from } => {
            let taken = bank.read(from);
            let settled = taken.settled();
            bank.held(slot, settled)
        }
    }
}

impl<'a, W: Word> LogicPort<'a, W> {
    /// The logic processor before its first turn. It takes memory for its tables and tasks, and for four words a
    /// slot. A packed one takes time for each table, to learn whether it is a gate's: a gate is answered in all
    /// lanes at once, and any other table lane by lane.
    pub fn new(
        alloc: Global,
        image: &'a Image,
        stim: &'a W::Feed,
        port: u32,
    ) -> Result<LogicPort<'a, W>, Memory>
        requires image { IsWellFormed image.now }
        requires stimulus { W.feeds image.now.columns stim.now }
        requires logic { IsPortOf image.now port IsLogic }
        ensures { IfOk result (λ made. made ≡ at_first image.now stim.now port) }
    {
        let port_image = &image.ports.as_slice()[port as usize];
        match &port_image.work {
            Work::Logic { tables, tasks } => {
                let tables = tables.as_slice();
                let tasks = tasks.as_slice();
                let forms = forms_of::<W>(alloc, tables)?;
                let ops = ops_of::<W>(alloc, image.slots, tables, forms.as_slice(), tasks)?;
                let bank = Bank::new(alloc, image, stim, port)?;
                Ok(LogicPort {
                    bank,
                    tables,
                    tasks,
                    ops,
                })
            }
            Work::Array { .. } => unreachable!(),
            Work::Host { .. } => unreachable!(),
        }
    }

    /// Begins a turn.
    pub fn begin_turn(&mut self)
        requires { InEachLane W.Word (λ view. CanBegin view) self.old }
        ensures { self.new ≡ after_begin self.old }
    {
        self.bank.begin_turn();
    }

    /// Executes the item in a slot, and answers its value.
    pub fn execute(&mut self, slot: u32) -> W
        requires { InEachLane W.Word (λ view. CanExecute view slot) self.old }
        ensures value { AreValues W.Word result (λ view. value_in view slot) self.old }
        ensures view { self.new ≡ after_execute self.old }
    {
        let op = self.ops.as_slice()[self.bank.executed()];
        let value = answer(&self.bank, self.tables, op, slot);
        self.bank.execute(slot, value);
        value
    }

    /// Receives the value that is sent in a slot.
    pub fn receive(&mut self, slot: u32, v: W)
        requires { InEachLaneOf W.Word v (λ view x. CanReceive view slot x) self.old }
        ensures { self.new ≡ after_receive self.old }
    {
        self.bank.receive(slot, v);
    }

    /// Ends the turn.
    pub fn end_turn(&mut self)
        requires { InEachLane W.Word (λ view. CanEnd view) self.old }
        ensures { self.new ≡ after_end self.old }
    {
        self.bank.end_turn();
    }
}

impl<'a, W: Word> Port<W> for LogicPort<'a, W> {
    ghost seen = { λ port. port };

    ghost rows = { λ port. None };

    fn begin_turn(&mut self) {
        self.begin_turn();
    }

    #[inline]
    fn execute(&mut self, slot: u32) -> W {
        self.execute(slot)
    }

    #[inline]
    fn receive(&mut self, slot: u32, v: W) {
        self.receive(slot, v);
    }

    fn end_turn(&mut self) {
        self.end_turn();
    }
}
