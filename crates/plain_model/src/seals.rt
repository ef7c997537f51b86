//! The streams that a call seals.
ghost use Rattle.std.specs.Prelude.{◌≡◌, ◌≤◌, ◌==◌, ◌&&◌, IfOk, length, not};
ghost use Rattle.std.specs.List.{filter, list_any, range_with_len};
ghost use Rattle.stream_cuts.specs.Forced.{is_open};
ghost use Rattle.tree_model.specs.Keys.{meets};
ghost use Rattle.tree_model.specs.Laws.{changes_node};

use super::keeping::Unsealed;
use ccfs_base::NoMemory;
use std::alloc::Global;
use tree_model::{Update, changes_node, meets};

/// The streams below a number, in rising order.
pub(crate) fn streams_below(alloc: Global, count: u8) -> Result<Vec<u8>, NoMemory>
    ensures { IfOk result (λ all. all.items ≡ range_with_len 0 count) }
{
    let mut all = Vec::new(alloc);
    for stream in 0..count {
        all.push(stream)?;
    }
    Ok(all)
}

/// Whether a stream has an unsealed update.
pub(crate) fn is_open(unsealed: &[Unsealed], stream: u8) -> bool
    ensures { result ≡ is_open unsealed.now stream }
{
    for (of, _) in unsealed {
        if *of == stream {
            return true;
        }
    }
    false
}

/// Whether a stream has an unsealed update that changes this row as such.
fn is_changer(unsealed: &[Unsealed], id: u32, stream: u8) -> bool
    ensures { result ≡ list_any (λ e. e.0 == stream && changes_node id e.1.0) unsealed.now }
{
    for (of, (update, _)) in unsealed {
        if *of == stream && changes_node(update, id) {
            return true;
        }
    }
    false
}

/// Whether a stream has an unsealed update that meets this one.
fn is_met(unsealed: &[Unsealed], update: &Update, stream: u8) -> bool
    ensures { result ≡ list_any (λ e. e.0 == stream && meets e.1.0 update.now) unsealed.now }
{
    for (of, (other, _)) in unsealed {
        if *of == stream && meets(other, update) {
            return true;
        }
    }
    false
}

/// Those of the streams that have an unsealed update.
pub(crate) fn open_ones(
    alloc: Global,
    unsealed: &[Unsealed],
    streams: &[u8],
) -> Result<Vec<u8>, NoMemory>
    ensures those { IfOk result (λ all. all.items ≡ filter (is_open unsealed.now) streams.now) }
    ensures few { IfOk result (λ all. length all.items ≤ length streams.now) }
{
    let mut all = Vec::new(alloc);
    for stream in streams {
        if is_open(unsealed, *stream) {
            all.push(*stream)?;
        }
    }
    Ok(all)
}

/// Those of the streams that have an unsealed update which changes this row as such.
pub(crate) fn changers(
    alloc: Global,
    unsealed: &[Unsealed],
    id: u32,
    streams: &[u8],
) -> Result<Vec<u8>, NoMemory>
    ensures those { IfOk result (λ all. all.items ≡ filter (λ s. list_any (λ e. e.0 == s && changes_node id e.1.0) unsealed.now) streams.now) }
    ensures few { IfOk result (λ all. length all.items ≤ length streams.now) }
{
    let mut all = Vec::new(alloc);
    for stream in streams {
        if is_changer(unsealed, id, *stream) {
            all.push(*stream)?;
        }
    }
    Ok(all)
}

/// Those of the streams, other than `own`, that have an unsealed update which meets this one.
pub(crate) fn forced(
    alloc: Global,
    unsealed: &[Unsealed],
    own: u8,
    update: &Update,
    streams: &[u8],
) -> Result<Vec<u8>, NoMemory>
    ensures those { IfOk result (λ all. all.items ≡ filter (λ r. not (r == own) && list_any (λ e. e.0 == r && meets e.1.0 update.now) unsealed.now) streams.now) }
    ensures few { IfOk result (λ all. length all.items ≤ length streams.now) }
{
    let mut all = Vec::new(alloc);
    for stream in streams {
        if *stream != own && is_met(unsealed, update, *stream) {
            all.push(*stream)?;
        }
    }
    Ok(all)
}
