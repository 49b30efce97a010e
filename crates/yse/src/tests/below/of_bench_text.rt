//! The tokens of a text.

use bench_text::scan::tokens;
use std::alloc::Global;

/// CRLF, a comment, blanks and a last line without its LF: 13 tokens.
const TEXT: &[u8] = b"z = NOT(a) # \xff\r\n\t[q0,q1];~!*\r";

/// Whether a text of at most a million bytes has so many tokens.
fn has_tokens(alloc: Global, text: &[u8], count: usize) -> bool {
    if text.len() > 1_000_000 {
        return false;
    }
    match tokens(alloc, text) {
        Ok(read) => read.list.len() == count,
        Err(_) => false,
    }
}

/// The tokens themselves are said by a clause. A name of 255 bytes is one.
#[test]
fn cuts_tokens(rt: HostRuntime) {
    assert!(rt; has_tokens(rt.alloc(), TEXT, 13));
    assert!(rt; has_tokens(rt.alloc(), b"", 0));
    assert!(rt; has_tokens(rt.alloc(), &[b'a'; 255], 1));
}
