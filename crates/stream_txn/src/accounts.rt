//! What each stream has unsealed, in numbers.
ghost use Rattle.std.specs.Prelude.{ℕ, ◌≡◌, ◌<◌, ◌+◌, ◌^◌, length, slice_set};
ghost use Rattle.stream_txn.specs.Accounts.{account_at, no_account, raised};

use super::updates::STREAMS;
use std::{array, mem};

/// The sums over the updates of a stream that are not sealed.
#[derive(Clone, Copy)]
pub struct Account {
    /// Whether there is such an update.
    pub is_open: bool,
    /// What they weigh.
    pub weight: u32,
    /// How many blocks they gave up.
    pub gave_blocks: u32,
    /// How many rows they gave up.
    pub gave_rows: u32,
}

/// The sums over no updates.
const NO_ACCOUNT: Account = Account {
    is_open: false,
    weight: 0,
    gave_blocks: 0,
    gave_rows: 0,
};

/// The sums over no updates, for each stream.
pub fn no_accounts() -> [Account; STREAMS]
    ensures { (stream : ℕ) → account_at result stream ≡ no_account }
{
    array::from_fn(|_| NO_ACCOUNT)
}

/// Counts one more update of a stream.
pub fn raise(accounts: &mut [Account], stream: u8, weight: u32, gave_blocks: u32, gave_rows: u32)
    requires stream { stream < length accounts.old }
    requires weight { (account_at accounts.old stream).weight + weight < 2 ^ 32 }
    requires blocks { (account_at accounts.old stream).gave_blocks + gave_blocks < 2 ^ 32 }
    requires rows { (account_at accounts.old stream).gave_rows + gave_rows < 2 ^ 32 }
    ensures { accounts.new ≡ slice_set accounts.old stream (raised (account_at accounts.old stream) weight gave_blocks gave_rows) }
{
    let account = &mut accounts[usize::from(stream)];
    account.is_open = true;
    account.weight += weight;
    account.gave_blocks += gave_blocks;
    account.gave_rows += gave_rows;
}

/// Hands out the sums of a stream, and leaves it those over no updates.
pub fn take_account(accounts: &mut [Account], stream: u8) -> Account
    requires { stream < length accounts.old }
    ensures taken { result ≡ account_at accounts.old stream }
    ensures left { accounts.new ≡ slice_set accounts.old stream no_account }
{
    mem::replace(&mut accounts[usize::from(stream)], NO_ACCOUNT)
}
