//! Counts of calls and faults, which stand still at the last value of a `u64`.

ghost use Rattle.std.specs.Prelude.{◌≡◌};
ghost use Rattle.edge_io.specs.FileCounts.{no_calls, after_start, after_read, after_failed_read};
ghost use Rattle.edge_io.specs.{Counts.raised, SinkCounts.no_writes, SinkCounts.after_write};

/// The counts of a store of files, each of which stands still at its last value.
#[derive(Clone, Copy)]
pub struct FileCounts {
    /// The faults: each call that failed, and whatever else a store counts as one.
    pub faults: u64,
    /// The calls that answered `Failed`.
    pub failures: u64,
    /// The calls of `start`.
    pub starts: u64,
    /// The calls of `start` with a name that is told to be absent.
    pub absent_starts: u64,
    /// The calls of `read`.
    pub reads: u64,
    /// The bytes that they gave.
    pub given: u64,
}

impl FileCounts {
    pub(crate) fn new() -> FileCounts
        ensures { result ≡ no_calls }
    {
        FileCounts {
            faults: 0,
            failures: 0,
            starts: 0,
            absent_starts: 0,
            reads: 0,
            given: 0,
        }
    }

    pub(crate) fn start(&mut self, absent: bool, failed: bool)
        ensures { self.new ≡ after_start self.old absent failed }
    {
        raise(&mut self.starts, 1);
        raise(&mut self.absent_starts, u64::from(absent));
        raise(&mut self.faults, u64::from(failed));
        raise(&mut self.failures, u64::from(failed));
    }

    pub(crate) fn read(&mut self, n: usize)
        ensures { self.new ≡ after_read self.old n }
    {
        raise(&mut self.reads, 1);
        raise(&mut self.given, n as u64);
    }

    pub(crate) fn failed_read(&mut self)
        ensures { self.new ≡ after_failed_read self.old }
    {
        raise(&mut self.reads, 1);
        raise(&mut self.faults, 1);
        raise(&mut self.failures, 1);
    }
}

/// The counts of a sink.
#[derive(Clone, Copy)]
pub struct SinkCounts {
    faults: u64,
    writes: u64,
}

impl SinkCounts {
    pub(crate) fn new() -> SinkCounts
        ensures { result ≡ no_writes }
    {
        SinkCounts {
            faults: 0,
            writes: 0,
        }
    }

    pub(crate) fn write(&mut self, failed: bool)
        ensures { self.new ≡ after_write self.old failed }
    {
        raise(&mut self.writes, 1);
        raise(&mut self.faults, u64::from(failed));
    }
}

/// Raises a count by n, as far as its type goes.
pub(crate) fn raise(count: &mut u64, n: u64)
    ensures { count.new ≡ raised count.old n }
{
    *count = count.saturating_add(n);
}
