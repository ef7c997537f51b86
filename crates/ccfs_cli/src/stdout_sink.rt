// Standard output: a part of the trusted edge. It tells nothing of what it holds.
ghost use Rattle.std.specs.Prelude.{◌≡◌, ◌≤◌, ℕ, List, []};

use ccfs_base::{Sink, SinkFailed};
use fault_counts::raised_count;

/// Standard output.
#[derive(Drop)]
pub struct StdoutSink<'a, R: Print> {
    rt: &'a R,
    faults: u64,
}

impl<'a, R: Print> StdoutSink<'a, R> {
    /// The output of the program.
    pub fn new(rt: &'a R) -> Self
        ensures { result.faults ≡ 0 }
    {
        StdoutSink { rt, faults: 0 }
    }
}

impl<'a, R: Print> Sink for StdoutSink<'a, R> {
    ghost tells = { ⊥ };

    ghost held = { λ s. [] };

    ghost faults = { λ s. s.faults };

    fn write(&mut self, bytes: &[u8]) -> Result<usize, SinkFailed> {
        match self.rt.write_some(bytes) {
            Ok(count) if count > 0 => Ok(count),
            _ => {
                self.faults = raised_count(self.faults);
                Err(SinkFailed)
            }
        }
    }
}
