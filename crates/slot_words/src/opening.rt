//! Making words and their passes.

ghost use Rattle.std.specs.Prelude.{IfOk, IfSome, length, replicate, ◌++◌, ◌+◌, ◌<◌, ◌^◌, ◌≡◌, ◌≤◌};
ghost use Rattle.image_defs.specs.WellFormed.{IsWellFormed};
ghost use Rattle.event_defs.specs.{Row.send_count, Sources.AreFirsts};
ghost use Rattle.slot_words.specs.code.Opening.{IsOpened, IsTemplate, IsWinner};
ghost use Rattle.slot_words.specs.{Passes.AreFirstPasses, Passes.IsFirstPass, Passes.IsMade, Rule.IsRunnable};

use crate::feed::Feed;
use crate::links;
use crate::pass::Pass;
use crate::rule::{Copied, Key, Names, UNCLAIMED, View};
use crate::words::Words;
use atomic_table::{Seat, Table};
use event_defs::first_sends;
use image_defs::Image;
use seen_list::{List, Memory};
use std::alloc::{AllocError, Global};
use std::marker::PhantomData;
use std::snapshot::Snapshot;
use std::sync::Wait;

/// The words before the first step: no port is claimed, and nothing was sent.
fn first_words(alloc: Global, ports: usize, sent: usize) -> Result<Vec<u64>, AllocError>
    requires { (ports < 2 ^ 32) × (sent < 2 ^ 32) }
    ensures { IfOk result (λ words. words.items ≡ replicate ports UNCLAIMED ++ replicate sent 0) }
{
    let mut words = Vec::new(alloc);
    words.resize(ports, UNCLAIMED)?;
    words.resize(ports + sent, 0)?;
    Ok(words)
}

/// The words, and a seat that is no port's.
fn open<D, F: Feed<D>>(
    alloc: Global,
    image: &Image,
    feed: &D,
    banks: u32,
    sends: u32,
) -> Result<(Words<D, F>, Seat<(), View<D>>), Memory>
    requires runs { IsRunnable F.Feed image.now feed.now banks }
    requires sends { sends ≡ send_count image.now }
    ensures { IfOk result (λ opened. IsOpened F.Feed image.now feed.now banks opened.0 opened.1) }
{
    let key = Key {
        image: Snapshot::of(image),
        feed: Snapshot::of(feed),
        banks,
    };
    let Ok(words) = first_words(alloc, image.ports.len(), sends as usize * banks as usize) else {
        return Err(Memory);
    };
    match Table::of_words(alloc, words.as_slice(), &key) {
        Ok((table, seat)) => Ok((Words { table, banks }, seat)),
        Err(_) => Err(Memory),
    }
}

/// A seat that claims a port, or `None` where the port was claimed before.
fn claim<D, F: Feed<D>>(
    bar: &Words<D, F>,
    template: &mut Seat<(), View<D>>,
    p: u32,
) -> Option<Seat<(), View<D>>>
    requires template { IsTemplate F.Feed bar.now template.old }
    requires there { p < length bar.now.image.ports }
    ensures template { IsTemplate F.Feed bar.now template.new }
    ensures seat { IfSome result (IsWinner bar.now p) }
{
    let shared = &bar.table.shared;
    let mut seat = shared.split_seat::<Copied>(template);
    let found = shared.compare_exchange::<Names>(&mut seat, p as usize, UNCLAIMED, 0);
    if found == UNCLAIMED { Some(seat) } else { None }
}

/// The pass of a port, by its seat.
fn pass_of<D, F: Feed<D>>(
    alloc: Global,
    bar: &Words<D, F>,
    image: &Image,
    firsts: &[u32],
    p: u32,
    seat: Seat<(), View<D>>,
) -> Result<Pass<D, F>, Memory>
    requires image { image.now ≡ bar.now.image }
    requires firsts { AreFirsts image.now (length image.now.ports + 1) firsts.now }
    requires there { p < length image.now.ports }
    requires seat { IsWinner bar.now p seat }
    ensures { IfOk result (IsFirstPass bar.now p) }
{
    let banks = bar.banks;
    Ok(Pass {
        seat,
        port: p,
        banks,
        turn: 1,
        known: List::filled(alloc, 0, image.ports.len())?,
        sends: links::send_links(alloc, image, firsts, banks, p as usize)?,
        receipts: links::receipt_links(alloc, image, firsts, banks, p as usize)?,
        last_send: 0,
        last_receipt: 0,
        feed: PhantomData,
    })
}

/// The passes of all ports, in their order, or `None` where some port was claimed before.
fn deal<D, F: Feed<D>>(
    alloc: Global,
    bar: &Words<D, F>,
    image: &Image,
    firsts: &[u32],
    template: Seat<(), View<D>>,
) -> Result<Option<List<Pass<D, F>>>, Memory>
    requires fits { IsWellFormed image.now }
    requires image { image.now ≡ bar.now.image }
    requires firsts { AreFirsts image.now (length image.now.ports + 1) firsts.now }
    requires template { IsTemplate F.Feed bar.now template }
    ensures { IfOk result (λ dealt. IfSome dealt (AreFirstPasses bar.now (length image.now.ports))) }
{
    let mut template = template;
    let mut passes = List::new(alloc);
    'ports: for p in 0..image.ports.len() as u32 {
        let Some(seat) = claim(bar, &mut template, p) else {
            return Ok(None);
        };
        passes.push(pass_of(alloc, bar, image, firsts, p, seat)?)?;
    }
    Ok(Some(passes))
}

/// The words and the passes of all ports, or `None` where some port was claimed before.
fn try_make<D, F: Feed<D>>(
    alloc: Global,
    image: &Image,
    feed: &D,
    banks: u32,
    firsts: &[u32],
) -> Result<Option<(Words<D, F>, List<Pass<D, F>>)>, Memory>
    requires runs { IsRunnable F.Feed image.now feed.now banks }
    requires firsts { AreFirsts image.now (length image.now.ports + 1) firsts.now }
    ensures { IfOk result (λ tried. IfSome tried (λ made. IsMade image.now feed.now banks made.0 made.1)) }
{
    let sends = firsts[image.ports.len()];
    let (bar, template) = open(alloc, image, feed, banks, sends)?;
    match deal(alloc, &bar, image, firsts, template) {
        Ok(Some(passes)) => Ok(Some((bar, passes))),
        Ok(None) => Ok(None),
        Err(no) => Err(no),
    }
}

/// The words and the passes, with new words until no port was claimed before.
fn make_by<D, F: Feed<D>, R: Wait>(
    rt: &R,
    alloc: Global,
    image: &Image,
    feed: &D,
    banks: u32,
    firsts: &[u32],
) -> Result<(Words<D, F>, List<Pass<D, F>>), Memory>
    requires runs { IsRunnable F.Feed image.now feed.now banks }
    requires firsts { AreFirsts image.now (length image.now.ports + 1) firsts.now }
    ensures { IfOk result (λ made. IsMade image.now feed.now banks made.0 made.1) }
{
    'tries: for _ in rt.forever() {
        match try_make(alloc, image, feed, banks, firsts) {
            Ok(Some(made)) => return Ok(made),
            Ok(None) => {}
            Err(no) => return Err(no),
        }
    }
    unreachable!()
}

impl<D, F: Feed<D>> Words<D, F> {
    /// The words of an image with a feed, and one pass for each port, in their order, each before its first
    /// event. It may begin again with new words, without a bound on how often, so what it promises holds if
    /// it returns.
    pub fn make<R: Wait>(
        rt: &R,
        alloc: Global,
        image: &Image,
        feed: &D,
        banks: u32,
    ) -> Result<(Words<D, F>, List<Pass<D, F>>), Memory>
        requires runs { IsRunnable F.Feed image.now feed.now banks }
        ensures { IfOk result (λ made. IsMade image.now feed.now banks made.0 made.1) }
    {
        let firsts = first_sends(alloc, image)?;
        make_by(rt, alloc, image, feed, banks, firsts.as_slice())
    }
}
