//! What is read from, and what is written to.
ghost use Rattle.std.specs.Prelude.{◌≡◌, ◌↔◌, ◌<◌, ◌≤◌, ℕ, List, [], ◌++◌, length, take, IfOk, OnOk, OnErr};
ghost use Rattle.fault_counts.specs.Counts.{HasCause};

use thiserror::Error;

/// A source failed.
#[derive(Clone, Copy, Debug, PartialEq, Eq, Drop, Error)]
#[error("the source failed")]
pub struct SourceFailed;

/// A sink failed.
#[derive(Clone, Copy, Debug, PartialEq, Eq, Drop, Error)]
#[error("the sink failed")]
pub struct SinkFailed;

/// What bytes are read from. An implementation tells what it gave and what is left, or not (`tells`); its count of
/// faults is always told and never falls.
pub trait Source {
    ghost tells: { Type 0 };

    ghost given: { Self → List ℕ };

    ghost left: { Self → List ℕ };

    ghost faults: { Self → ℕ };

    /// Puts the next bytes of its input into the first places of `into`, and answers how many; 0 is the end of the
    /// input. A failed call gives nothing.
    fn read(&mut self, into: &mut [u8]) -> Result<usize, SourceFailed>
        requires { 0 < length into.old }
        ensures count { IfOk result (λ n. n ≤ length into.old) }
        ensures given { tells → IfOk result (λ n. given self.new ≡ given self.old ++ take n into.new) }
        ensures left { tells → IfOk result (λ n. left self.old ≡ take n into.new ++ left self.new) }
        ensures end { tells → IfOk result (λ n. (n ≡ 0) ↔ (left self.old ≡ [])) }
        ensures nothing { tells → OnErr result ((given self.new ≡ given self.old) × (left self.new ≡ left self.old)) }
        ensures cause { HasCause (faults self.old) (faults self.new) result }
        ensures steady { OnOk result (faults self.new ≡ faults self.old) };
}

/// What bytes are written to. An implementation tells what it holds, or not (`tells`); its count of faults is always
/// told and never falls.
pub trait Sink {
    ghost tells: { Type 0 };

    ghost held: { Self → List ℕ };

    ghost faults: { Self → ℕ };

    /// Appends the first of these bytes, at least one, and answers how many. A failed call appends nothing.
    fn write(&mut self, bytes: &[u8]) -> Result<usize, SinkFailed>
        requires { 0 < length bytes.now }
        ensures count { IfOk result (λ n. (1 ≤ n) × (n ≤ length bytes.now)) }
        ensures put { tells → IfOk result (λ n. held self.new ≡ held self.old ++ take n bytes.now) }
        ensures nothing { tells → OnErr result (held self.new ≡ held self.old) }
        ensures cause { HasCause (faults self.old) (faults self.new) result }
        ensures steady { OnOk result (faults self.new ≡ faults self.old) };
}

/// Writes all of the bytes. Where the sink fails, a front of them that lacks the last is written.
pub fn write_all<K: Sink>(out: &mut K, bytes: &[u8]) -> Result<(), SinkFailed>
    ensures ok { K.tells → OnOk result (K.held out.new ≡ K.held out.old ++ bytes.now) }
    ensures err { K.tells → OnErr result ((n : ℕ) × (n < length bytes.now) × (K.held out.new ≡ K.held out.old ++ take n bytes.now)) }
    ensures cause { HasCause (K.faults out.old) (K.faults out.new) result }
    ensures steady { OnOk result (K.faults out.new ≡ K.faults out.old) }
{
    let mut done = 0;
    while done < bytes.len() {
        let n = out.write(&bytes[done..])?;
        done += n;
    }
    Ok(())
}
