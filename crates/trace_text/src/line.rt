//! A line of a trace in room of a fixed size.

ghost use Rattle.std.specs.Prelude.{◌≡◌, ◌+◌, ◌^◌, ◌<◌, ◌≤◌, decimal, [], ◌∷◌, ◌++◌, length, map, max, IfOk, IfSome};
ghost use Rattle.std.specs.List.{flat_map};
ghost use Rattle.limits.specs.declared.TheConstants.{MAX_CYCLES};
ghost use Rattle.logic_four.specs.Values.{value_char};
ghost use Rattle.net_defs.specs.{Canonical.name_of, Trace.header_line, Trace.cycle_line};
ghost use Rattle.trace_text.specs.Line.{HasRoom, row_room};

use itoa::Buffer;
use logic_four::{V4, to_char};
use net_defs::{Netlist, name_of};
use seen_list::{Memory, Room};
use std::alloc::Global;
use std::marker::Model;

/// The bytes of a line of cycles with no values: at most seven digits, a space and the line end.
const ROW_ROOM: usize = 9;

/// A line of a trace, made in room that was taken for the longest one. A contract sees its bytes and
/// how many bytes there is room for.
#[derive(Drop)]
pub struct TraceLine {
    line: Room,
}

impl Model for TraceLine {
    ghost use Rattle.seen_list.specs.Filling.{Filling};

    ghost Value = { Filling };

    ghost view = { λ l. l.line };
}

impl TraceLine {
    /// An empty line with room for each line of a trace of the netlist.
    pub fn new(alloc: Global, net: &Netlist) -> Result<TraceLine, Memory>
        ensures room { IfOk result (HasRoom net.now) }
        ensures empty { IfOk result (λ line. line.bytes ≡ []) }
    {
        let Some(room) = room_for(net) else {
            return Err(Memory);
        };
        let line = Room::new(alloc, room)?;
        Ok(TraceLine { line })
    }

    /// The bytes of the line that was made last.
    pub fn bytes(&self) -> &[u8]
        ensures { result.now ≡ self.now.bytes }
    {
        self.line.as_bytes()
    }

    /// Makes the header: `cycle`, and each printed name in file order after a space.
    #[tactic(auto, unfolding(net_defs::specs::Trace::header_line))]
    pub fn header(&mut self, net: &Netlist)
        requires { HasRoom net.now self.old }
        ensures { self.new ≡ record self.old { bytes = header_line net.now } }
    {
        self.line.clear();
        self.line.push_bytes(b"cycle");
        push_names(&mut self.line, net);
        self.line.push(b'\n');
    }

    /// Makes the line of a cycle, counted from 1, with the value of each printed signal in file order.
    #[tactic(auto, unfolding(net_defs::specs::Trace::cycle_line))]
    pub fn row(&mut self, cycle: u32, cells: &[V4])
        requires room { row_room (length cells.now) ≤ self.old.room }
        requires cycle { cycle ≤ MAX_CYCLES }
        ensures { self.new ≡ record self.old { bytes = cycle_line cycle cells.now } }
    {
        self.line.clear();
        push_number(&mut self.line, cycle);
        self.line.push(b' ');
        push_values(&mut self.line, cells);
        self.line.push(b'\n');
    }
}

fn push_number(line: &mut Room, number: u32)
    requires room { length line.old.bytes + 7 ≤ line.old.room }
    requires short { number < 10 ^ 7 }
    ensures bytes { line.new ≡ record line.old { bytes = line.old.bytes ++ decimal number } }
    ensures len { length line.new.bytes ≤ length line.old.bytes + 7 }
{
    line.push_bytes(Buffer::new().format(number).as_bytes());
}

fn push_name(line: &mut Room, name: &[u8])
    requires { length line.old.bytes + 1 + length name.now ≤ line.old.room }
    ensures { line.new ≡ record line.old { bytes = line.old.bytes ++ 32 ∷ name.now } }
{
    line.push(b' ');
    line.push_bytes(name);
}

fn push_names(line: &mut Room, net: &Netlist)
    requires { length line.old.bytes + length (flat_map (λ s. 32 ∷ name_of net.now s) net.now.printed) ≤ line.old.room }
    ensures { line.new ≡ record line.old { bytes = line.old.bytes ++ flat_map (λ s. 32 ∷ name_of net.now s) net.now.printed } }
{
    for number in net.printed.as_slice() {
        push_name(line, name_of(net, *number));
    }
}

fn push_values(line: &mut Room, values: &[V4])
    requires { length line.old.bytes + length values.now ≤ line.old.room }
    ensures bytes { line.new ≡ record line.old { bytes = line.old.bytes ++ map value_char values.now } }
    ensures len { length line.new.bytes ≡ length line.old.bytes + length values.now }
{
    for value in values {
        line.push(to_char(*value));
    }
}

/// The bytes of the longest line of a trace of the netlist, if a `usize` can count them.
fn room_for(net: &Netlist) -> Option<usize>
    ensures { IfSome result (λ room. room ≡ max (length (header_line net.now)) (row_room (length net.now.printed))) }
{
    let header = header_length(net)?;
    let row = net.printed.len().checked_add(ROW_ROOM)?;
    Some(header.max(row))
}

/// The bytes of the header, if a `usize` can count them.
#[tactic(auto, unfolding(net_defs::specs::Trace::header_line))]
fn header_length(net: &Netlist) -> Option<usize>
    ensures { IfSome result (λ n. n ≡ length (header_line net.now)) }
{
    names_length(net)?.checked_add(b"cycle\n".len())
}

/// The bytes of the printed names, each after a space, if a `usize` can count them.
fn names_length(net: &Netlist) -> Option<usize>
    ensures { IfSome result (λ n. n ≡ length (flat_map (λ s. 32 ∷ name_of net.now s) net.now.printed)) }
{
    let mut names = 0usize;
    for number in net.printed.as_slice() {
        names = names
            .checked_add(1)?
            .checked_add(name_of(net, *number).len())?;
    }
    Some(names)
}
