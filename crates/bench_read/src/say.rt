//! What a line does, by its word, in any letter case, and the number of its names.

ghost use Rattle.std.specs.Prelude.{◌≡◌, Some};
ghost use Rattle.bench_read.specs.Saying as saying;
ghost use Rattle.bench_read.specs.code.Storing.{act_by_head, act_by_port, act_by_gate, act_by_kind, act_by_memory};

use crate::draft::Act;
use crate::refusal::BenchNo;
use bench_text::form::Head;
use limits::{MAX_ADDRESS_BITS, MAX_WORD_BITS};
use logic_four::{Kind, allows, kind_of};

/// What the line with this head does, or its fault.
pub fn say(at: u32, head: Head) -> Result<Act, BenchNo>
    ensures { result ≡ act_by_head at head.entry }
{
    match head {
        Head::Port { word, .. } => port_act(at, word),
        Head::Gate { word, uses, .. } => gate_act(at, word, uses),
        Head::Memory {
            word,
            outs,
            address,
            words,
        } => memory_act(at, word, outs, address, words),
    }
}

/// What a line of the form of inputs and outputs does.
fn port_act(at: u32, word: &[u8]) -> Result<Act, BenchNo>
    ensures { result ≡ act_by_port at word.now }
{
    if word.eq_ignore_ascii_case(b"INPUT") {
        Ok(Act::Input)
    } else if word.eq_ignore_ascii_case(b"OUTPUT") {
        Ok(Act::Output)
    } else {
        Err(BenchNo::Syntax { line: at })
    }
}

/// What a line of the gate form does.
fn gate_act(at: u32, word: &[u8], uses: usize) -> Result<Act, BenchNo>
    ensures { result ≡ act_by_gate at word.now uses }
{
    if word.eq_ignore_ascii_case(b"DFF") {
        if uses == 1 {
            Ok(Act::Register)
        } else {
            Err(BenchNo::Arity { line: at })
        }
    } else {
        match kind_of(word) {
            Some(kind) => kind_act(at, kind, uses),
            None => Err(BenchNo::UnknownKind { line: at }),
        }
    }
}

/// What a gate of this kind does.
fn kind_act(at: u32, kind: Kind, uses: usize) -> Result<Act, BenchNo>
    ensures { result ≡ act_by_kind at uses (Some kind) }
{
    if allows(kind, uses) {
        Ok(Act::Gate {
            kind,
            uses: uses as u32,
        })
    } else {
        Err(BenchNo::Arity { line: at })
    }
}

/// What a line of the memory form does.
fn memory_act(
    at: u32,
    word: &[u8],
    outs: usize,
    address: usize,
    words: usize,
) -> Result<Act, BenchNo>
    ensures { result ≡ act_by_memory at word.now outs address words }
{
    if !word.eq_ignore_ascii_case(b"RAM") {
        Err(BenchNo::UnknownKind { line: at })
    } else if allows_memory(address, words, outs) {
        Ok(Act::Memory {
            outs: outs as u32,
            address: address as u32,
            words: words as u32,
        })
    } else {
        Err(BenchNo::Arity { line: at })
    }
}

/// Whether a memory may have so many address names, data names and outputs.
fn allows_memory(address: usize, words: usize, outputs: usize) -> bool
    ensures { result ≡ saying.allows_memory address words outputs }
{
    1 <= address
        && address <= MAX_ADDRESS_BITS
        && 1 <= words
        && words <= MAX_WORD_BITS
        && words == outputs
}
