//! Names of entries: 1 to 64 bytes each, kept in place.
ghost use Rattle.std.specs.Prelude.{◌≡◌, ◌↔◌, ◌-◌, ◌^◌, ◌≤◌, ℕ, List, [], length, min, IsTrue, true, false, MatchResult, IfErr, ◌==◌};
ghost use Rattle.std.specs.List.{list_all};
ghost use Rattle.std.specs.Cmp.Lexicographic.{slice_cmp, pointwise};
ghost use Rattle.std.specs.Ordering.{nat_cmp, as_partial_cmp};
ghost use Rattle.ccfs_base.specs.Names.{is_name_byte, is_name, is_name_or_none, bad_place};

use std::cmp::Ordering;
use std::marker::Model;
use thiserror::Error;

/// The most bytes that a name has.
pub const NAME_MOST: usize = 64;

/// A name of 1 to 64 bytes, or the empty name of the root. It is kept in place and is copied without memory. Names
/// are ordered by their bytes.
#[derive(Clone, Copy, Debug, Drop)]
pub struct Name {
    bytes: [u8; 64],
    len: u8,
}

impl Model for Name {
    ghost use Rattle.std.specs.Prelude.{ℕ, List};

    ghost Value = { List ℕ };

    ghost use Rattle.ccfs_base.specs.Padded.{shown, IsPadded, kept, kept_ok};

    ghost view = { shown };

    ghost invariant = { IsPadded };

    ghost inverse = { kept };

    ghost inverse_ok = { kept_ok };
}

/// Why bytes are no name.
#[derive(Clone, Copy, Debug, PartialEq, Eq, Drop, Error)]
pub enum NameFault {
    /// The bytes are no name. The place is that of the first byte that no name has, or the length where there is no
    /// such byte (an empty or too long name, `.` or `..`), and at most the last `u32`.
    #[error("no name, at byte {place}")]
    BadName {
        /// An index in bytes.
        place: u32,
    },
}

fn may_stand_in_name(byte: u8) -> bool
    ensures { result ≡ is_name_byte byte }
{
    byte >= 33 && byte <= 126 && byte != b'/'
}

/// Whether these bytes are a name.
pub fn spells_name(text: &[u8]) -> bool
    ensures { result ≡ is_name text.now }
{
    if text.is_empty() || text.len() > NAME_MOST {
        return false;
    }
    if text == b".".as_slice() || text == b"..".as_slice() {
        return false;
    }
    are_name_bytes(text)
}

fn are_name_bytes(text: &[u8]) -> bool
    ensures { result ≡ list_all is_name_byte text.now }
{
    text.iter().all(|byte| may_stand_in_name(*byte))
}

fn first_bad_byte(text: &[u8]) -> usize
    ensures { result ≡ bad_place text.now }
{
    for (place, byte) in text.iter().enumerate() {
        if !may_stand_in_name(*byte) {
            return place;
        }
    }
    text.len()
}

impl Name {
    /// The name of these bytes, or `BadName` exactly where they are no name.
    pub fn parse(text: &[u8]) -> Result<Name, NameFault>
        ensures cases { MatchResult result (λ name. (name ≡ text.now) × IsTrue (is_name text.now)) (λ _. is_name text.now ≡ false) }
        ensures place { IfErr result (λ fault. fault ≡ NameFault.BadName (min (bad_place text.now) (2 ^ 32 - 1))) }
    {
        if !spells_name(text) {
            let place = first_bad_byte(text).min(u32::MAX as usize) as u32;
            return Err(NameFault::BadName { place });
        }
        let mut bytes = [0; 64];
        bytes[..text.len()].copy_from_slice(text);
        Ok(Name {
            bytes,
            len: text.len() as u8,
        })
    }

    /// The empty name, which the root has and which `parse` never gives.
    pub fn empty() -> Name
        ensures { result ≡ [] }
    {
        Name {
            bytes: [0; 64],
            len: 0,
        }
    }

    /// Its bytes: those of a name, or none.
    pub fn all(&self) -> &[u8]
        ensures value { result.now ≡ self.now }
        ensures few { length self.now ≤ 64 }
        ensures name { IsTrue (is_name_or_none self.now) }
    {
        &self.bytes[..self.len as usize]
    }

    /// Whether it is the empty name.
    pub fn is_empty(&self) -> bool
        ensures { IsTrue result ↔ (self.now ≡ []) }
    {
        self.all().is_empty()
    }
}

impl PartialEq for Name {
    ghost use Rattle.std.specs.Cmp.{partial_equiv_from_equiv};
    ghost use Rattle.std.proofs.lemmas.Cmp.{nat_list_eq_equiv};

    ghost eq = { pointwise ◌==◌ };

    ghost laws = { partial_equiv_from_equiv nat_list_eq_equiv };

    fn eq(&self, other: &Name) -> bool {
        self.all() == other.all()
    }
}

impl Eq for Name {
    ghost use Rattle.std.proofs.lemmas.Cmp.{nat_list_eq_equiv};

    ghost laws = { nat_list_eq_equiv };
}

impl Ord for Name {
    ghost use Rattle.std.proofs.Common.{refl, sym};
    ghost use Rattle.std.proofs.lemmas.Cmp.{nat_list_cmp_total};
    ghost use Rattle.std.proofs.lemmas.Map.Text.{is_eq-slice_cmp};

    ghost cmp = { slice_cmp nat_cmp };

    ghost total = { nat_list_cmp_total };

    ghost matches_partial_cmp = { λ _ _. refl };

    ghost matches_eq = { λ x y. sym (is_eq-slice_cmp x y) };

    fn cmp(&self, other: &Name) -> Ordering {
        self.all().cmp(other.all())
    }
}

impl PartialOrd for Name {
    ghost use Rattle.std.proofs.Common.{refl, sym};
    ghost use Rattle.std.specs.Cmp.{partial_order_from_agreeing_total};
    ghost use Rattle.std.proofs.lemmas.Cmp.{nat_list_cmp_total};
    ghost use Rattle.std.proofs.lemmas.Map.Text.{is_eq-slice_cmp};

    ghost partial_cmp = { as_partial_cmp (slice_cmp nat_cmp) };

    ghost laws = { partial_order_from_agreeing_total (slice_cmp nat_cmp) nat_list_cmp_total (λ _ _. refl) (λ x y. sym (is_eq-slice_cmp x y)) };

    fn partial_cmp(&self, other: &Name) -> Option<Ordering> {
        Some(self.cmp(other))
    }
}
