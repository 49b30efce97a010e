//! The writing of a whole piece.

ghost use Rattle.std.specs.Prelude.{◌≡◌, ◌≤◌, [], length, OnOk, OnErr, IsOk};
ghost use Rattle.std.specs.Io.KnownBytes.{append_known};
ghost use Rattle.edge_io.specs.{Counts.raised, Counts.Rose, Writing.TakesProperPrefix, Writing.Writes};

use crate::{Failed, Sink};

/// Why a piece wasn't written.
#[derive(Clone, Copy, PartialEq, Eq)]
pub enum WriteNo {
    /// A call of the sink failed.
    Failed,
}

/// Writes a whole piece, in as many writes as the sink wants. An empty piece makes no call.
#[tactic(auto, using(crate::proofs::lemmas::Taking::taken_more))]
pub fn write_whole<S: Sink>(sink: &mut S, piece: &[u8]) -> Result<(), WriteNo>
    ensures whole { OnOk result (S.taken sink.new ≡ append_known (S.taken sink.old) piece.now) }
    ensures prefix { OnErr result (TakesProperPrefix (S.taken sink.old) (S.taken sink.new) piece.now) }
    ensures failed { OnErr result (Rose (S.faults sink.old) (S.faults sink.new)) }

    ensures faults_kept { S.faults sink.old ≤ S.faults sink.new }
    ensures writes_at_most { S.writes sink.new ≤ raised (S.writes sink.old) (length piece.now) }
    ensures empty { piece.now ≡ [] → IsOk result × (sink.new ≡ sink.old) }
{
    let mut done = 0;
    'writes: while done < piece.len() {
        match sink.write(&piece[done..]) {
            Ok(n) => done += n,
            Err(Failed) => return Err(WriteNo::Failed),
        }
    }
    Ok(())
}

/// Writes a whole piece, as `write_whole` does. The clause is the one record by which the pieces of an output join.
pub fn write_piece<S: Sink>(sink: &mut S, piece: &[u8]) -> Result<(), WriteNo>
    ensures { Writes S.Sink.own sink.old sink.new result piece.now }
{
    write_whole(sink, piece)
}
