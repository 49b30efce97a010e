//! The line with the number of a lane.

ghost use Rattle.std.specs.Prelude.{◌≡◌, ◌+◌, ◌≤◌, ◌++◌, decimal, length, IfOk};
ghost use Rattle.trace_text.specs.Lines.{HasMarkRoom, lane_line};

use itoa::Buffer;
use seen_list::{Memory, Room};
use std::alloc::Global;
use std::marker::Model;

/// The bytes of the longest line: `lane`, a space, at most ten digits and the line end.
const MARK_ROOM: usize = 16;

/// A line with the number of a lane, made in room that was taken once. A contract sees its bytes and how many bytes
/// there is room for.
#[derive(Drop)]
pub struct LaneMark {
    line: Room,
}

impl Model for LaneMark {
    ghost use Rattle.seen_list.specs.Filling.{Filling};

    ghost Value = { Filling };

    ghost view = { λ l. l.line };
}

impl LaneMark {
    /// An empty line, with room for the number of any lane.
    pub fn new(alloc: Global) -> Result<LaneMark, Memory>
        ensures { IfOk result HasMarkRoom }
    {
        let line = Room::new(alloc, MARK_ROOM)?;
        Ok(LaneMark { line })
    }

    /// The bytes of the line that was made last.
    pub fn bytes(&self) -> &[u8]
        ensures { result.now ≡ self.now.bytes }
    {
        self.line.as_bytes()
    }

    /// Makes the line of a lane, counted from 1.
    #[tactic(auto, unfolding(crate::specs::Lines::lane_line))]
    pub fn lane(&mut self, lane: u32)
        requires { HasMarkRoom self.old }
        ensures { self.new ≡ record self.old { bytes = lane_line lane } }
    {
        self.line.clear();
        self.line.push_bytes(b"lane ");
        push_number(&mut self.line, lane);
        self.line.push(b'\n');
    }
}

fn push_number(line: &mut Room, number: u32)
    requires { length line.old.bytes + 10 ≤ line.old.room }
    ensures bytes { line.new ≡ record line.old { bytes = line.old.bytes ++ decimal number } }
    ensures len { length line.new.bytes ≤ length line.old.bytes + 10 }
{
    line.push_bytes(Buffer::new().format(number).as_bytes());
}
