//! Sums over the unsealed updates. A sum that is larger than a word is told as the greatest word.
ghost use Rattle.std.specs.Prelude.{◌≡◌, min};
ghost use Rattle.stream_cuts.specs.Streams.{without};
ghost use Rattle.tree_cuts.specs.Calls.{unsealed_blocks, unsealed_rows, unsealed_weight};
ghost use Rattle.plain_model.specs.Bounds.{most};

use super::keeping::Unsealed;

/// The blocks that the unsealed updates of all streams gave up.
pub(crate) fn unsealed_blocks(unsealed: &[Unsealed]) -> u128
    ensures { result ≡ min (unsealed_blocks unsealed.now) most }
{
    let mut sum: u128 = 0;
    for (_, (_, charge)) in unsealed {
        sum = sum.saturating_add(charge.gave_blocks);
    }
    sum
}

/// The blocks that the unsealed updates of the other streams gave up.
pub(crate) fn blocks_of_others(unsealed: &[Unsealed], stream: u8) -> u128
    ensures { result ≡ min (unsealed_blocks (without stream unsealed.now)) most }
{
    let mut sum: u128 = 0;
    for (of, (_, charge)) in unsealed {
        if *of != stream {
            sum = sum.saturating_add(charge.gave_blocks);
        }
    }
    sum
}

/// The rows that the unsealed updates of all streams gave up.
pub(crate) fn unsealed_rows(unsealed: &[Unsealed]) -> u128
    ensures { result ≡ min (unsealed_rows unsealed.now) most }
{
    let mut sum: u128 = 0;
    for (_, (_, charge)) in unsealed {
        sum = sum.saturating_add(u128::from(charge.gave_rows));
    }
    sum
}

/// The rows that the unsealed updates of the other streams gave up.
pub(crate) fn rows_of_others(unsealed: &[Unsealed], stream: u8) -> u128
    ensures { result ≡ min (unsealed_rows (without stream unsealed.now)) most }
{
    let mut sum: u128 = 0;
    for (of, (_, charge)) in unsealed {
        if *of != stream {
            sum = sum.saturating_add(u128::from(charge.gave_rows));
        }
    }
    sum
}

/// The weight of the unsealed updates of a stream.
pub(crate) fn unsealed_weight(unsealed: &[Unsealed], stream: u8) -> u128
    ensures { result ≡ min (unsealed_weight stream unsealed.now) most }
{
    let mut sum: u128 = 0;
    for (of, (_, charge)) in unsealed {
        if *of == stream {
            sum = sum.saturating_add(charge.weight);
        }
    }
    sum
}
