//! Numbers that stand several times, each with how often.

ghost use Rattle.std.specs.Prelude.{◌≡◌, ◌≢◌, ℕ, ◌+◌, ◌<◌, ◌≤◌, OnOk, length};
ghost use Rattle.home_pick.specs.{Bags.where_at, code.Bags.times, code.Bags.entry_at, code.Bags.IsBag, code.Uses.bag_at};

use seen_list::{List, Memory};

/// A number and how often it stands.
#[derive(Clone, Copy)]
pub(crate) struct Entry {
    pub(crate) key: u32,
    pub(crate) count: u32,
}

/// The bag at a place of a list.
pub(crate) fn bag_of(bags: &List<List<Entry>>, i: usize) -> &[Entry]
    requires { i < length bags.now }
    ensures { result.now ≡ bag_at bags.now i }
{
    bags.as_slice()[i].as_slice()
}

/// The place of a number's entry, or the number of entries where it has none. A long bag has its entries
/// at the places of their numbers, and is not searched.
fn place_of(bag: &[Entry], key: u32) -> usize
    ensures within { result ≤ length bag.now }
    ensures none { result ≡ length bag.now → (k : ℕ) → k < length bag.now → (entry_at bag.now k).key ≢ key }
    ensures here { result < length bag.now → (entry_at bag.now result).key ≡ key }
{
    let place = key as usize;
    if place < bag.len() && bag[place].key == key {
        place
    } else {
        first_place(bag, key)
    }
}

/// The same by a search.
fn first_place(bag: &[Entry], key: u32) -> usize
    ensures within { result ≤ length bag.now }
    ensures before { (k : ℕ) → k < result → (entry_at bag.now k).key ≢ key }
    ensures here { result < length bag.now → (entry_at bag.now result).key ≡ key }
{
    'entries: for k in 0..bag.len() {
        if bag[k].key == key {
            return k;
        }
    }
    bag.len()
}

/// The place of an entry that counts nothing, or the number of entries where there is none. Entries at
/// the places of their numbers are left there.
fn free_place(bag: &[Entry]) -> usize
    ensures within { result ≤ length bag.now }
    ensures here { result < length bag.now → (entry_at bag.now result).count ≡ 0 }
{
    'entries: for k in 0..bag.len() {
        if bag[k].count == 0 && bag[k].key as usize != k {
            return k;
        }
    }
    bag.len()
}

/// How often a number stands in a bag.
pub(crate) fn times_of(bag: &[Entry], key: u32) -> u32
    requires { IsBag bag.now }
    ensures { result ≡ times bag.now key }
{
    let k = place_of(bag, key);
    if k < bag.len() { bag[k].count } else { 0 }
}

/// Puts a number so many times more into a bag. An entry that counts nothing is used again.
pub(crate) fn give(bag: &mut List<Entry>, key: u32, count: u32) -> Result<(), Memory>
    requires { IsBag bag.old }
    ensures bag { OnOk result (IsBag bag.new) }
    ensures size { OnOk result (length bag.new ≤ length bag.old + 1) }
    ensures times { OnOk result ((q : ℕ) → times bag.new q ≡ times bag.old q + (where_at key q count)) }
{
    let k = place_of(bag.as_slice(), key);
    if k < bag.len() {
        raise(bag, k, count)
    } else {
        add(bag, key, count)
    }
}

/// The entry counts so many times more. A count past 32 bits is refused like want of memory.
fn raise(bag: &mut List<Entry>, k: usize, count: u32) -> Result<(), Memory>
    requires bag { IsBag bag.old }
    requires within { k < length bag.old }
    ensures bag { OnOk result (IsBag bag.new) }
    ensures size { OnOk result (length bag.new ≤ length bag.old + 1) }
    ensures times { OnOk result ((q : ℕ) → times bag.new q ≡ times bag.old q + (where_at (entry_at bag.old k).key q count)) }
{
    let had = bag.as_slice()[k];
    match had.count.checked_add(count) {
        Some(sum) => {
            bag.set(
                k,
                Entry {
                    key: had.key,
                    count: sum,
                },
            );
            Ok(())
        }
        None => Err(Memory),
    }
}

/// A number that has no entry gets one.
fn add(bag: &mut List<Entry>, key: u32, count: u32) -> Result<(), Memory>
    requires bag { IsBag bag.old }
    requires new { (k : ℕ) → k < length bag.old → (entry_at bag.old k).key ≢ key }
    ensures bag { OnOk result (IsBag bag.new) }
    ensures size { OnOk result (length bag.new ≤ length bag.old + 1) }
    ensures times { OnOk result ((q : ℕ) → times bag.new q ≡ times bag.old q + (where_at key q count)) }
{
    let free = free_place(bag.as_slice());
    if free < bag.len() {
        bag.set(free, Entry { key, count });
        Ok(())
    } else {
        bag.push(Entry { key, count })?;
        Ok(())
    }
}

/// Takes a number so many times out of a bag.
pub(crate) fn take(bag: &mut List<Entry>, key: u32, count: u32)
    requires bag { IsBag bag.old }
    requires some { count ≤ times bag.old key }
    ensures bag { IsBag bag.new }
    ensures times { (q : ℕ) → times bag.old q ≡ times bag.new q + (where_at key q count) }
{
    let k = place_of(bag.as_slice(), key);
    if k < bag.len() {
        lower(bag, k, count);
    }
}

/// The entry counts so many times less.
fn lower(bag: &mut List<Entry>, k: usize, count: u32)
    requires bag { IsBag bag.old }
    requires within { k < length bag.old }
    requires some { count ≤ (entry_at bag.old k).count }
    ensures bag { IsBag bag.new }
    ensures times { (q : ℕ) → times bag.old q ≡ times bag.new q + (where_at (entry_at bag.old k).key q count) }
{
    let had = bag.as_slice()[k];
    bag.set(
        k,
        Entry {
            key: had.key,
            count: had.count - count,
        },
    );
}
