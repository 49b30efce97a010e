//! The ports in the core, each with what it knows and where its words stand.

ghost use Rattle.std.specs.Prelude.{IfOk, length, slice_set, ℕ, ◌%◌, ◌+◌, ◌<◌, ◌^◌, ◌≡◌, ◌≤◌};
ghost use Rattle.net_defs.specs.Valid.{IsValidStimulus};
ghost use Rattle.image_defs.specs.{WellFormed.IsWellFormed, declared.image.LinkIn.LinkIn, declared.image.LinkOut.LinkOut};
ghost use Rattle.port_walk.specs.Placed.{CanPut, CanTake, CanTakeValue, IsEnding, IsReceiving, IsSending};
ghost use Rattle.event_defs.specs.Sources.{AreFirsts};
ghost use Rattle.order_run.specs.code.CorePorts.{AtCorePort, HasPutRoom, HasTakeRoom, HasWritten, IsNextIn, IsWordRead, core_port_asked, core_port_put, core_port_taken, core_port_told};
ghost use Rattle.order_run.specs.code.Made.{AreFirstCorePorts, IsFirstCorePort, whole_run};

use crate::words::{first_bank, next_bank, place_of, word_of};
use event_defs::Action;
use image_defs::Image;
use logic_four::V4;
use net_defs::Stimulus;
use port_walk::AnyPort;
use seen_list::{List, Memory};
use std::alloc::Global;

/// A port in the core: how many turns it knows each port to have finished, for each of its receipts
/// the number of the send that it comes from among all sends, the number of its own first send, and
/// the bank of its turn.
#[derive(Drop)]
pub(crate) struct CorePort<'a> {
    pub port: AnyPort<'a>,
    pub known: List<u64>,
    pub sources: List<u32>,
    pub first: u32,
    pub bank: u32,
}

/// The core_port of a port before its first event. The port runs all cycles in one block, of this window.
fn first_core_port<'a>(
    alloc: Global,
    image: &'a Image,
    stim: &'a Stimulus,
    firsts: &[u32],
    banks: u32,
    window: u32,
    p: usize,
) -> Result<CorePort<'a>, Memory>
    requires image { IsWellFormed image.now }
    requires stimulus { IsValidStimulus stim.now }
    requires columns { stim.now.columns ≡ image.now.columns }
    requires some { 1 ≤ banks }
    requires firsts { AreFirsts image.now (length image.now.ports + 1) firsts.now }
    requires window { window ≡ whole_run stim.now }
    requires there { p < length image.now.ports }
    ensures { IfOk result (IsFirstCorePort image.now stim.now banks p) }
{
    let known = List::filled(alloc, 0, image.ports.len())?;
    let sources = event_defs::sources_of(alloc, image, firsts, p)?;
    let port = AnyPort::new(alloc, image, stim, p as u32, window)?;
    Ok(CorePort {
        port,
        known,
        sources,
        first: firsts[p],
        bank: first_bank(banks),
    })
}

/// The core_ports of all ports before their first events. The ports run all cycles in one block, of this
/// window.
pub(crate) fn make<'a>(
    alloc: Global,
    image: &'a Image,
    stim: &'a Stimulus,
    firsts: &[u32],
    banks: u32,
    window: u32,
) -> Result<List<CorePort<'a>>, Memory>
    requires image { IsWellFormed image.now }
    requires stimulus { IsValidStimulus stim.now }
    requires columns { stim.now.columns ≡ image.now.columns }
    requires some { 1 ≤ banks }
    requires firsts { AreFirsts image.now (length image.now.ports + 1) firsts.now }
    requires window { window ≡ whole_run stim.now }
    ensures { IfOk result (AreFirstCorePorts image.now stim.now banks (length image.now.ports)) }
{
    let mut core_ports = List::new(alloc);
    'ports: for p in 0..image.ports.len() {
        core_ports.push(first_core_port(alloc, image, stim, firsts, banks, window, p)?)?;
    }
    Ok(core_ports)
}

/// The next event of a port.
pub(crate) fn next(core_ports: &[CorePort], p: usize, banks: u32) -> Action
    requires there { p < length core_ports.now }
    requires wide { AtCorePort core_ports.now p (λ core_port. length core_port.known ≡ length core_port.port.image.ports) }
    ensures { AtCorePort core_ports.now p (λ core_port. IsNextIn core_port banks result) }
{
    let core_port = &core_ports[p];
    core_port.port.next(core_port.known.as_slice(), banks)
}

/// The turn of a port.
pub(crate) fn turn(core_ports: &[CorePort], p: usize) -> u64
    requires { p < length core_ports.now }
    ensures { AtCorePort core_ports.now p (λ core_port. result ≡ core_port.port.turn) }
{
    core_ports[p].port.turn()
}

/// A port has learnt how many turns a reader has finished.
pub(crate) fn ask(core_ports: &mut [CorePort], p: usize, reader: u32, finished: u64)
    requires there { p < length core_ports.old }
    requires reader { AtCorePort core_ports.old p (λ core_port. reader < length core_port.known) }
    ensures { AtCorePort core_ports.old p (λ core_port. core_ports.new
        ≡ slice_set core_ports.old p (core_port_asked core_port reader finished)) }
{
    core_ports[p].known.set(reader as usize, finished);
}

/// A port writes the word of its next Put: its turn and the code of the value.
pub(crate) fn write(core_ports: &[CorePort], p: usize, banks: u32, words: &mut List<u64>, value: V4)
    requires there { p < length core_ports.now }
    requires can { AtCorePort core_ports.now p (λ core_port. CanPut core_port.port) }
    requires room { AtCorePort core_ports.now p (λ core_port. HasPutRoom core_port banks (length words.old)) }
    requires early { AtCorePort core_ports.now p (λ core_port. core_port.port.turn < 2 ^ 60) }
    requires some { 1 ≤ banks }
    ensures { AtCorePort core_ports.now p (λ core_port. HasWritten core_port banks value words.old words.new) }
{
    let core_port = &core_ports[p];
    let _room = words.len();
    let send = core_port.first as usize + core_port.port.next_send();
    let place = place_of(send, core_port.bank, banks);
    words.set(place, word_of(core_port.port.turn(), value));
}

/// The Put of a port that was next is made.
pub(crate) fn put(core_ports: &mut [CorePort], p: usize)
    requires there { p < length core_ports.old }
    requires can { AtCorePort core_ports.old p (λ core_port. CanPut core_port.port) }
    ensures { AtCorePort core_ports.old p (λ core_port. (i : ℕ) (link : LinkOut) → IsSending core_port.port i link
        → core_ports.new ≡ slice_set core_ports.old p (core_port_put core_port link.slot)) }
{
    core_ports[p].port.put_done();
}

/// The word that a port's next Take reads.
pub(crate) fn read(core_ports: &[CorePort], p: usize, banks: u32, words: &List<u64>) -> u64
    requires there { p < length core_ports.now }
    requires can { AtCorePort core_ports.now p (λ core_port. CanTake core_port.port) }
    requires room { AtCorePort core_ports.now p (λ core_port. HasTakeRoom core_port banks (length words.now)) }
    ensures { AtCorePort core_ports.now p (λ core_port. IsWordRead core_port banks words.now result) }
{
    let core_port = &core_ports[p];
    let source = core_port.sources.as_slice()[core_port.port.next_receipt()];
    words.as_slice()[place_of(source as usize, core_port.bank, banks)]
}

/// The Take of a port that was next is made, and gave this value.
pub(crate) fn take(core_ports: &mut [CorePort], p: usize, v: V4)
    requires there { p < length core_ports.old }
    requires can { AtCorePort core_ports.old p (λ core_port. CanTakeValue core_port.port v) }
    ensures { AtCorePort core_ports.old p (λ core_port. (j : ℕ) (link : LinkIn) → IsReceiving core_port.port j link
        → core_ports.new ≡ slice_set core_ports.old p (core_port_taken core_port link.slot)) }
{
    core_ports[p].port.took(v);
}

/// The Tell of a port that was next is made.
pub(crate) fn tell(core_ports: &mut [CorePort], p: usize, banks: u32)
    requires there { p < length core_ports.old }
    requires can { AtCorePort core_ports.old p (λ core_port. IsEnding core_port.port) }
    requires bank { AtCorePort core_ports.old p (λ core_port. core_port.bank ≡ core_port.port.turn % banks) }
    requires some { 1 ≤ banks }
    ensures { AtCorePort core_ports.old p (λ core_port. core_ports.new
        ≡ slice_set core_ports.old p (core_port_told core_port ((core_port.port.turn + 1) % banks))) }
{
    let core_port = &mut core_ports[p];
    core_port.port.told();
    core_port.bank = next_bank(core_port.bank, banks);
}
