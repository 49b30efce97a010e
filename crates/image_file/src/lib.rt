//! Image texts: an image with its claims as a text, written and read.
//!
//! The text of a file is one list of lines, which `specs/` states. What is read is the file whose text
//! it is: each text has one file at most, and each file in range is read back from its text. A text that
//! is no file's has a first fault, which names its line.
//!
//! ```
//! let file = read_image(alloc, text.as_bytes())?; // the image and its claims, or ImageNo::Syntax { line: 13 }
//! let written = write_image(alloc, &file)?; // the same text
//! ```
#![tactic(auto)]

mod adding;
mod draft;
pub mod law;
mod reading;
mod refusal;
mod room;
mod standing;
mod writing;

pub use reading::read_image;
pub use refusal::ImageNo;
pub use writing::write_image;
