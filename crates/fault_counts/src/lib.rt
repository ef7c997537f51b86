//! Counts of faults: an object of the outside counts each failure of its own, so that a caller's clause can say what a
//! refusal came from. The crate stands on nothing, and each trait of the outside cites its definitions.
#![tactic(auto)]

ghost use Rattle.std.specs.Prelude.{◌≡◌};
ghost use Rattle.fault_counts.specs.Counts.{raised};

/// One more than `count`, but at the last value of its type, where it stays.
pub fn raised_count(count: u64) -> u64
    ensures { result ≡ raised count }
{
    count.saturating_add(1)
}

#[cfg(test)]
mod tests {
    use super::*;

    #[test]
    fn a_count_stays_at_its_last_value(rt: HostRuntime) {
        assert_eq!(rt; raised_count(4), 5);
        assert_eq!(rt; raised_count(u64::MAX), u64::MAX);
    }
}
