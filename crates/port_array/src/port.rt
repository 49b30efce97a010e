//! An array processor in its run.

ghost use Rattle.std.specs.Prelude.{◌≡◌, IfOk, None};
ghost use Rattle.image_defs.specs.Ports.{at_first, after_begin, after_execute, after_receive, after_end, value_in, CanBegin, CanExecute, CanReceive, CanEnd};
ghost use Rattle.image_defs.specs.WellFormed.{IsWellFormed, IsPortOf, IsArray};
ghost use Rattle.port_bank.specs.Words.{InEachLane, InEachLaneOf, AreValues};

use crate::laned::Laned;
use crate::memory::{MemoryState, answered, begin_memories, make_memories};
use image_defs::{BlockWork, Image, OutBit, Work};
use net_defs::initial_value;
use port_bank::{Bank, Port};
use seen_list::{List, Memory};
use std::alloc::Global;
use std::marker::Model;

/// An array processor in its run. A contract sees whose image and stimulus it runs and how far it has come.
///
/// The plain one is `ArrayPort<V4>`: of it the contract of `execute` says that it may be called where
/// `CanExecute self.old slot`, and `result ≡ value_in self.old slot`. Of the packed one, `ArrayPort<Planes>`, it says the
/// same of the plain port of each lane; it holds each memory once a lane.
#[derive(Drop)]
pub struct ArrayPort<'a, W: Laned> {
    bank: Bank<'a, W>,
    blocks: &'a [BlockWork],
    bits: &'a [OutBit],
    memories: List<MemoryState<W>>,
}

impl<'a, W: Laned> Model for ArrayPort<'a, W> {
    ghost use Rattle.image_defs.specs.Ports.{View};

    ghost Value = { View W.Feed };

    ghost use Rattle.port_array.specs.Lanes.{IsReady};

    ghost view = { λ a. a.bank };

    ghost invariant = { λ a. IsReady W.Word (record { bank = a.bank; blocks = a.blocks.now; bits = a.bits.now; memories = a.memories }) };
}

impl<'a, W: Laned> ArrayPort<'a, W> {
    /// The array processor before its first turn. It takes memory for each of its memories once a lane,
    /// and for four words a slot. No later call takes any.
    pub fn new(
        alloc: Global,
        image: &'a Image,
        stim: &'a W::Feed,
        port: u32,
    ) -> Result<ArrayPort<'a, W>, Memory>
        requires image { IsWellFormed image.now }
        requires stimulus { W.feeds image.now.columns stim.now }
        requires array { IsPortOf image.now port IsArray }
        ensures { IfOk result (λ made. made ≡ at_first image.now stim.now port) }
    {
        let port_image = &image.ports.as_slice()[port as usize];
        match &port_image.work {
            Work::Logic { .. } => unreachable!(),
            Work::Array { blocks, outs } => {
                let memories = make_memories(alloc, blocks.as_slice(), initial_value(image.init))?;
                let bank = Bank::new(alloc, image, stim, port)?;
                Ok(ArrayPort {
                    bank,
                    blocks: blocks.as_slice(),
                    bits: outs.as_slice(),
                    memories,
                })
            }
            Work::Host { .. } => unreachable!(),
        }
    }

    /// Begins a turn. In the first turn of a cycle, but for turn 1, the memories of each lane read and
    /// write.
    pub fn begin_turn(&mut self)
        requires { InEachLane W.Word (λ view. CanBegin view) self.old }
        ensures { self.new ≡ after_begin self.old }
    {
        begin_memories(&mut self.memories, self.blocks, &self.bank);
        self.bank.begin_turn();
    }

    /// Executes the item in a slot, and answers its value in each lane.
    pub fn execute(&mut self, slot: u32) -> W
        requires { InEachLane W.Word (λ view. CanExecute view slot) self.old }
        ensures value { AreValues W.Word result (λ view. value_in view slot) self.old }
        ensures view { self.new ≡ after_execute self.old }
    {
        let bit = self.bits[self.bank.executed()];
        let answer = answered(self.memories.as_slice(), bit);
        let values = self.bank.held(slot, answer);
        self.bank.execute(slot, values);
        values
    }

    /// Receives the values that are sent in a slot.
    pub fn receive(&mut self, slot: u32, v: W)
        requires { InEachLaneOf W.Word v (λ view x. CanReceive view slot x) self.old }
        ensures { self.new ≡ after_receive self.old }
    {
        self.bank.receive(slot, v);
    }

    /// Ends the turn.
    pub fn end_turn(&mut self)
        requires { InEachLane W.Word (λ view. CanEnd view) self.old }
        ensures { self.new ≡ after_end self.old }
    {
        self.bank.end_turn();
    }
}

impl<'a, W: Laned> Port<W> for ArrayPort<'a, W> {
    ghost seen = { λ port. port };

    ghost rows = { λ port. None };

    fn begin_turn(&mut self) {
        self.begin_turn();
    }

    #[inline]
    fn execute(&mut self, slot: u32) -> W {
        self.execute(slot)
    }

    #[inline]
    fn receive(&mut self, slot: u32, v: W) {
        self.receive(slot, v);
    }

    fn end_turn(&mut self) {
        self.end_turn();
    }
}
