//! Bags in a list that get and lose numbers.

ghost use Rattle.std.specs.Prelude.{◌≡◌, ◌≢◌, ℕ, ◌<◌, ◌≤◌, IfOk, OnOk, [], length, slice_index};
ghost use Rattle.home_pick.specs.{Bags.where_at, code.Bags.counted, code.Bags.times, code.Bags.IsBag, Crossings.times_in};
ghost use Rattle.home_pick.specs.code.Uses.{bag_at, AreBags, Gives};

use crate::bags::{Entry, bag_of, give, take};
use seen_list::{List, Memory};
use std::alloc::Global;

/// A bag for each item, in which nothing stands. One of an item that is used at as many places as there
/// are ports begins with an entry for each port.
pub(crate) fn empty_bags(
    alloc: Global,
    places: &[u32],
    ports: u32,
) -> Result<List<List<Entry>>, Memory>
    ensures size { IfOk result (λ bags. length bags ≡ length places.now) }
    ensures bags { IfOk result AreBags }
    ensures none { IfOk result (λ bags. (i q : ℕ) → times (bag_at bags i) q ≡ 0) }
{
    let mut bags = List::new(alloc);
    'bags: for i in 0..places.len() {
        let bag = empty_bag(alloc, if places[i] < ports { 0 } else { ports })?;
        bags.push(bag)?;
    }
    Ok(bags)
}

/// A bag in which nothing stands, with an entry for each of so many numbers, at the number's place.
fn empty_bag(alloc: Global, numbers: u32) -> Result<List<Entry>, Memory>
    ensures bag { IfOk result IsBag }
    ensures none { IfOk result (λ bag. (q : ℕ) → times bag q ≡ 0) }
{
    let mut bag = List::new(alloc);
    'numbers: for key in 0..numbers {
        bag.push(Entry { key, count: 0 })?;
    }
    Ok(bag)
}

/// At how many places items take each item. It tells how a bag begins, and nothing of what it holds.
pub(crate) fn places_of(alloc: Global, takes: &List<List<Entry>>) -> Result<List<u32>, Memory>
    ensures { IfOk result (λ places. length places ≡ length takes.now) }
{
    let mut places = List::filled(alloc, 0, takes.len())?;
    'items: for u in 0..takes.len() {
        count_places(&mut places, bag_of(takes, u));
    }
    Ok(places)
}

/// The same of what one item takes.
fn count_places(places: &mut List<u32>, taken: &[Entry])
    ensures { length places.new ≡ length places.old }
{
    'taken: for k in 0..taken.len() {
        let item = taken[k].key as usize;
        if item < places.len() {
            let had = places.as_slice()[item];
            places.set(item, had.saturating_add(taken[k].count));
        }
    }
}

/// Puts a number so many times more into the bag at a place.
fn give_to(bags: &mut List<List<Entry>>, i: usize, key: u32, count: u32) -> Result<(), Memory>
    requires within { i < length bags.old }
    requires bags { AreBags bags.old }
    ensures bags { OnOk result (AreBags bags.new) }
    ensures gives { OnOk result (Gives bags.old bags.new (λ j q. where_at i j (where_at key q count))) }
{
    give(&mut bags.as_mut_slice()[i], key, count)?;
    Ok(())
}

/// Takes a number so many times out of the bag at a place.
fn take_from(bags: &mut List<List<Entry>>, i: usize, key: u32, count: u32)
    requires within { i < length bags.old }
    requires bags { AreBags bags.old }
    requires some { count ≤ times (bag_at bags.old i) key }
    ensures bags { AreBags bags.new }
    ensures gives { Gives bags.new bags.old (λ j q. where_at i j (where_at key q count)) }
{
    take(&mut bags.as_mut_slice()[i], key, count);
}

/// Puts a port into the bag of each item of the list, as often as the item stands there.
pub(crate) fn give_all(bags: &mut List<List<Entry>>, items: &[u32], port: u32) -> Result<(), Memory>
    requires within { (k : ℕ) → k < length items.now → slice_index items.now k < length bags.old }
    requires bags { AreBags bags.old }
    ensures bags { OnOk result (AreBags bags.new) }
    ensures gives { OnOk result (Gives bags.old bags.new (λ j q. where_at port q (times_in items.now j))) }
{
    'items: for k in 0..items.len() {
        give_to(bags, items[k] as usize, port, 1)?;
    }
    Ok(())
}

/// Puts a port into the bag of each item that an entry counts, as often as it does.
pub(crate) fn give_bag(
    bags: &mut List<List<Entry>>,
    taken: &[Entry],
    port: u32,
) -> Result<(), Memory>
    requires within { (i : ℕ) → times taken.now i ≢ 0 → i < length bags.old }
    requires bags { AreBags bags.old }
    ensures bags { OnOk result (AreBags bags.new) }
    ensures gives { OnOk result (Gives bags.old bags.new (λ j q. where_at port q (times taken.now j))) }
{
    'taken: for k in 0..taken.len() {
        give_entry(bags, taken[k], port)?;
    }
    Ok(())
}

/// The same of one entry.
fn give_entry(bags: &mut List<List<Entry>>, taken: Entry, port: u32) -> Result<(), Memory>
    requires within { taken.count ≢ 0 → taken.key < length bags.old }
    requires bags { AreBags bags.old }
    ensures bags { OnOk result (AreBags bags.new) }
    ensures gives { OnOk result (Gives bags.old bags.new (λ j q. where_at port q (counted j taken))) }
{
    if taken.count == 0 {
        return Ok(());
    }
    give_to(bags, taken.key as usize, port, taken.count)
}

/// Takes a port out of the bag of each item that an entry counts, as often as it does.
pub(crate) fn take_bag(bags: &mut List<List<Entry>>, taken: &[Entry], port: u32)
    requires within { (i : ℕ) → times taken.now i ≢ 0 → i < length bags.old }
    requires bags { AreBags bags.old }
    requires some { (i : ℕ) → times taken.now i ≤ times (bag_at bags.old i) port }
    ensures bags { AreBags bags.new }
    ensures gives { Gives bags.new bags.old (λ j q. where_at port q (times taken.now j)) }
{
    'taken: for k in 0..taken.len() {
        take_entry(bags, taken[k], port);
    }
}

/// The same of one entry.
fn take_entry(bags: &mut List<List<Entry>>, taken: Entry, port: u32)
    requires within { taken.count ≢ 0 → taken.key < length bags.old }
    requires bags { AreBags bags.old }
    requires some { taken.count ≤ times (bag_at bags.old taken.key) port }
    ensures bags { AreBags bags.new }
    ensures gives { Gives bags.new bags.old (λ j q. where_at port q (counted j taken)) }
{
    if taken.count == 0 {
        return;
    }
    take_from(bags, taken.key as usize, port, taken.count);
}
