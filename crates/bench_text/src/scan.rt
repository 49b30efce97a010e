//! The scanner: one pass over the bytes of a text, with the tokens in a list.

ghost use Rattle.std.specs.Prelude.{◌≡◌, ◌≤◌, ◌<◌, ◌+◌, ◌^◌, ◌↔◌, ℕ, None, Some, slice_index, length, All, AllPairs, IfOk, OnOk, MatchResult, ◌++◌};
ghost use Rattle.std.specs.{Option.option_to_list, List.prefix_len};
ghost use Rattle.limits.specs.declared.TheConstants.{MAX_TEXT_BYTES};
ghost use Rattle.text_lines.specs.{Answers.Answers, Names.is_name_byte as is_name};
ghost use Rattle.bench_text.specs.Tokens.{tokens_of, first_fault, fault_at, name_length};
ghost use Rattle.bench_text.specs.Spans.{StandsIn, IsBefore, IsCovered, IsRead};
ghost use Rattle.bench_text.specs.code.Scans.{HasPassed, scan_at, scan_after, fault_of_name, fault_by, token_by, ends_line_after};
ghost use Rattle.bench_text.specs.declared.{class.Class.TheVariants.Name as NameByte, token.TextNo.TheVariants.Memory as NoMemory};
ghost use Rattle.bench_text.specs.Bytes as byte_specs;

use crate::class::{Class, class_of, is_name_byte};
use crate::token::{Mark, TextNo, Token, Tokens};
use limits::MAX_NAME_BYTES;
use seen_list::{List, Memory};
use std::alloc::Global;

/// The tokens of the text, or its first fault: the bad byte, or the name of more than 255 bytes,
/// whose first byte stands first.
pub fn tokens(alloc: Global, bytes: &[u8]) -> Result<Tokens, TextNo>
    requires { length bytes.now ≤ MAX_TEXT_BYTES }

    // Either the tokens, or the first fault, or memory ran out.
    ensures answers { Answers NoMemory result (first_fault bytes.now) (λ read. read.list ≡ tokens_of bytes.now) }

    // The tokens are pieces of the text, in order, and leave out blanks, comments and line ends alone.
    ensures spans { IfOk result (λ read. All (StandsIn bytes.now) read.list) }
    ensures order { IfOk result (λ read. AllPairs IsBefore read.list) }
    ensures covers { IfOk result (λ read. (i : ℕ) → i < length bytes.now → (IsCovered read.list i ↔ IsRead bytes.now i)) }
{
    let mut list = List::new(alloc);
    let mut scan = Scan::START;
    for i in 0..bytes.len() {
        let next = step(bytes, i, scan)?;
        add_token(&mut list, token_at_place(bytes, i, scan))?;
        scan = next;
    }
    Ok(Tokens { list })
}

/// Adds the token to the list, if there is one.
#[inline(always)]
fn add_token(list: &mut List<Token>, token: Option<Token>) -> Result<(), Memory>
    ensures { OnOk result (list.new ≡ list.old ++ option_to_list token) }
{
    if let Some(token) = token {
        list.push(token)?;
    }
    Ok(())
}

/// Whether the text has no fault; or its first one. It makes no list.
pub fn check(bytes: &[u8]) -> Result<(), TextNo>
    requires { length bytes.now ≤ MAX_TEXT_BYTES }
    ensures { MatchResult result (λ _. first_fault bytes.now ≡ None) (λ no. first_fault bytes.now ≡ Some no) }
{
    let mut scan = Scan::START;
    let mut i = 0;
    'places: while i < bytes.len() {
        let (len, next) = pass(bytes, i, scan)?;
        i += len;
        scan = next;
    }
    Ok(())
}

/// Where a scan stands, just before a byte.
#[derive(Clone, Copy)]
struct Scan {
    line: u32,
    column: u32,
    /// The byte before is inside a comment.
    in_comment: bool,
    /// The byte before is a name byte.
    in_name: bool,
}

impl Scan {
    const START: Scan = Scan {
        line: 1,
        column: 1,
        in_comment: false,
        in_name: false,
    };

    /// Where it stands after the byte.
    #[tactic(auto, unfolding(text_lines::specs::Places::stays_in_comment))]
    #[inline(always)]
    fn after(self, byte: u8) -> Scan
        requires line { self.line + 1 < 2 ^ 32 }
        requires column { self.column + 1 < 2 ^ 32 }
        ensures { result ≡ scan_after self byte }
    {
        let ends = byte == b'\n';
        Scan {
            line: if ends { self.line + 1 } else { self.line },
            column: if ends { 1 } else { self.column + 1 },
            in_comment: byte == b'#' || (self.in_comment && !ends),
            in_name: is_name_byte(byte),
        }
    }
}

/// How many bytes of a name stand at a place, or 1 where none does, and where a scan stands behind them; or the
/// fault of the place.
#[inline(always)]
fn pass(bytes: &[u8], i: usize, scan: Scan) -> Result<(usize, Scan), TextNo>
    requires within { i < length bytes.now }
    requires short { length bytes.now ≤ MAX_TEXT_BYTES }
    requires scan { scan ≡ scan_at bytes.now i }
    ensures { MatchResult result (λ passed. HasPassed bytes.now i passed.0 passed.1) (λ no. fault_at bytes.now i ≡ Some no) }
{
    if let Class::Name = class_of(bytes[i]) {
        return pass_name(bytes, i, scan);
    }
    Ok((1, step(bytes, i, scan)?))
}

/// The same where a byte of a name stands.
#[inline(always)]
fn pass_name(bytes: &[u8], i: usize, scan: Scan) -> Result<(usize, Scan), TextNo>
    requires within { i < length bytes.now }
    requires short { length bytes.now ≤ MAX_TEXT_BYTES }
    requires scan { scan ≡ scan_at bytes.now i }
    requires named { byte_specs.class_of (slice_index bytes.now i) ≡ NameByte }
    ensures { MatchResult result (λ passed. HasPassed bytes.now i passed.0 passed.1) (λ no. fault_at bytes.now i ≡ Some no) }
{
    let len = name_len(bytes, i);
    match name_fault(scan, len) {
        Some(no) => Err(no),
        None => Ok((
            len,
            Scan {
                column: scan.column + len as u32,
                in_name: true,
                ..scan
            },
        )),
    }
}

/// The fault where a scan stands before so many bytes of a name, if there is one.
#[inline(always)]
fn name_fault(scan: Scan, len: usize) -> Option<TextNo>
    ensures { result ≡ fault_of_name scan len }
{
    if scan.in_name || scan.in_comment {
        None
    } else if len > MAX_NAME_BYTES {
        Some(TextNo::LongName { line: scan.line })
    } else {
        None
    }
}

/// Where a scan stands behind a place; or the fault of the place.
#[inline(always)]
fn step(bytes: &[u8], i: usize, scan: Scan) -> Result<Scan, TextNo>
    requires within { i < length bytes.now }
    requires short { length bytes.now ≤ MAX_TEXT_BYTES }
    requires scan { scan ≡ scan_at bytes.now i }
    ensures { MatchResult result (HasPassed bytes.now i 1) (λ no. fault_at bytes.now i ≡ Some no) }
{
    match fault_at_place(bytes, i, scan) {
        None => Ok(scan.after(bytes[i])),
        Some(no) => Err(no),
    }
}

/// The fault of a place, if it has one.
#[inline(always)]
fn fault_at_place(bytes: &[u8], i: usize, scan: Scan) -> Option<TextNo>
    requires within { i < length bytes.now }
    ensures { result ≡ fault_by bytes.now i scan (byte_specs.class_of (slice_index bytes.now i)) }
{
    match class_of(bytes[i]) {
        Class::Name if scan.in_name => None,
        Class::Name => name_fault(scan, name_len(bytes, i)),
        Class::Return if scan.in_comment => None,
        Class::Return if ends_after(bytes, i) => None,
        Class::Bad if scan.in_comment => None,
        Class::Return | Class::Bad => Some(TextNo::BadByte {
            line: scan.line,
            column: scan.column,
        }),
        Class::Sign(_) | Class::Blank | Class::Feed | Class::Hash => None,
    }
}

/// The token that begins at a place, if one does.
fn token_at_place(bytes: &[u8], i: usize, scan: Scan) -> Option<Token>
    requires within { i < length bytes.now }
    requires short { length bytes.now ≤ MAX_TEXT_BYTES }
    ensures { result ≡ token_by bytes.now i scan (byte_specs.class_of (slice_index bytes.now i)) }
{
    if scan.in_comment {
        return None;
    }
    match class_of(bytes[i]) {
        Class::Name if scan.in_name => None,
        Class::Name => Some(token(Mark::Name, i, name_len(bytes, i), scan.line)),
        Class::Sign(mark) => Some(token(mark, i, 1, scan.line)),
        _ => None,
    }
}

/// A token of `len` bytes from place `from` on.
fn token(mark: Mark, from: usize, len: usize, line: u32) -> Token
    requires { from + len < 2 ^ 32 }
    ensures { result ≡ record { mark = mark; from = from; upto = from + len; line = line } }
{
    Token {
        mark,
        from: from as u32,
        upto: (from + len) as u32,
        line,
    }
}

/// How many name bytes stand in a row from a place on.
#[tactic(auto, unfolding(crate::specs::Tokens::name_length))]
fn name_len(bytes: &[u8], i: usize) -> usize
    requires { i < length bytes.now }
    ensures value { result ≡ name_length bytes.now i }
    ensures within { i + result ≤ length bytes.now }
{
    front_len(&bytes[i..])
}

/// How many name bytes stand in a row at the front.
fn front_len(rest: &[u8]) -> usize
    ensures value { result ≡ prefix_len is_name rest.now }
    ensures within { result ≤ length rest.now }
{
    rest.iter().take_while(|byte| is_name_byte(**byte)).count()
}

/// Whether LF or the end of the text comes just after a place.
#[inline(always)]
fn ends_after(bytes: &[u8], i: usize) -> bool
    requires { i < length bytes.now }
    ensures { result ≡ ends_line_after bytes.now i }
{
    i + 1 == bytes.len() || bytes[i + 1] == b'\n'
}
