//! Why a call isn't made.

/// Why a front doesn't make a call. All is as before then.
#[derive(Clone, Copy, Debug, PartialEq, Eq, Drop)]
pub enum ActFault {
    /// The history has as many calls as it may have.
    HistoryFull {
        /// How many.
        calls: u32,
    },
    /// The command isn't built yet.
    NotBuilt,
    /// There was no memory.
    NoMemory,
}
