//! The words of crossbars, which threads share under one rule: none is overwritten before its readers took it.
//! Each port of an image runs by itself and shares with the others only the words of a crossbar: one progress
//! word for each port, and for each send so many words as there are banks. A step loads or stores one word, and
//! its pass counts it. The rule holds between any two steps of all threads, in whatever order they fall: no word
//! is overwritten before its readers took it, and what is taken is the image's value of this turn. And what a
//! step says that it saw in a word, that word tells when the step is over. The definitions are in `specs/`: which
//! word is whose, what the rule says, and what each step does.
//!
//! Words are numbered. Word `p` is port `p`'s progress word, which holds the number of turns that the
//! port has finished. Behind them stand the words of all sends, port after port, send after send, bank
//! after bank. The word of bank `k % banks` of a send holds a number of the last turn `k` of that bank in
//! which the send was put.
//!
//! What such a number holds is said by a `Feed`; the rule knows only which number may be sent when, and that a
//! number tells its own turn from those before. There are two: plain words hold `4 * k` and the code of a value
//! (`Crossbar`), and packed words the planes of all lanes with `k` modulo 16 (`pack_words`).
//!
//! To share words under this rule in another project, say who sends to whom in which slot of a turn, and
//! what, as the links and the work of an image. Lend the crossbar to all threads, and move each pass to the
//! thread that is to run its port. In each turn a port puts each of its sends once, takes each of its
//! receipts once, in any order that suits it, and tells that the turn is over. Before a put in a turn `k`
//! greater than `banks` it asks each reader of the send until it knows it to have finished turn `k - banks`;
//! a `take` that finds nothing yet is tried again. All this is asked by the contracts, so a program that
//! breaks it doesn't check. So what is shared under it are the values that a well-formed image computes from
//! its stimulus, and no others: a `put` is asked to put that value.
//!
//! No contract says that a thread ever moves, which of two threads is first, or how fast either is.
//!
//! ```
//! let (bar, passes) = Crossbar::make(&rt, alloc, &image, &stim, 1)?; // the words, and one pass for each port
//! bar.put(&mut host, 0, V4::One); // what the sender has in slot 0 in this turn, by the sender's pass
//! let taken = bar.take(&mut port, 0); // Taken::Value(V4::One); before the put it was Taken::NotYet
//! bar.tell(&mut port); // once all puts and takes of its turn are made
//! let turns = bar.ask(&mut host, 0); // 1: port 0 has finished so many turns
//! ```
#![tactic(auto)]

mod crossbar;
mod feed;
pub mod law;
pub mod links;
mod opening;
pub mod pack_words;
mod pass;
mod rule;
mod steps;
mod words;

pub use crossbar::{Crossbar, Pass, Plain, Taken};
pub use feed::Feed;
pub use rule::UNCLAIMED;
pub use words::Words;
