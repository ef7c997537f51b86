//! Seals of streams.
ghost use Rattle.std.specs.Prelude.{◌≡◌, ◌==◌, map, not};
ghost use Rattle.std.specs.List.{filter};
ghost use Rattle.stream_cuts.specs.Streams.{Seal, without, unsealed_after};

use super::keeping::Unsealed;

/// Keeps the updates of the other streams.
fn keep_others(unsealed: &mut Vec<Unsealed>, stream: u8)
    ensures { unsealed.new.items ≡ filter (λ e. not (e.0 == stream)) unsealed.old.items }
{
    unsealed.retain(|one| one.0 != stream);
}

/// Seals a stream.
fn seal(unsealed: &mut Vec<Unsealed>, stream: u8)
    ensures { unsealed.new.items ≡ without stream unsealed.old.items }
{
    keep_others(unsealed, stream);
}

/// Seals these streams, first to last.
pub(crate) fn seal_all(unsealed: &mut Vec<Unsealed>, streams: &[u8])
    ensures { unsealed.new.items ≡ unsealed_after unsealed.old.items (map Seal streams.now) }
{
    for stream in streams {
        seal(unsealed, *stream);
    }
}
