//! Texts of lines: what a line, a comment, a blank, a word and a number are, where each byte of a
//! text stands, and the reader of lines, words and numbers that every text format here shares.
//!
//! A line ends with LF or with the end of the text, and a text that ends with LF has no further
//! line after it. A CR just before the LF or just before the end of the text belongs to no line.
//! `#` begins a comment that goes on to the end of its line, and any byte may stand in it. Lines
//! and columns are counted from 1, and columns count bytes.
//!
//! ```
//! let mut lines = Lines::new(b"11 # on\n00\n");
//! let first = lines.next(); // Some((1, b"11 ")), and then Some((2, b"00"))
//! let word = Words::new(b" logic 2").next(); // Some(b"logic")
//! let number = number_within(b"007", 1, 64); // Some(7)
//! ```
#![tactic(auto)]

pub mod bytes;
mod lines;
pub mod names;
pub mod numbers;
mod words;

pub use lines::Lines;
pub use words::Words;
