//! Keys that were seen.

ghost use Rattle.std.specs.Prelude.{◌≡◌, ◌+◌, ◌<◌, ◌≤◌, ℕ, [], not, IfOk, OnOk};
ghost use Rattle.arrayvec.specs.ArrayVec.{array_vec_len};
ghost use Rattle.farm_rows.specs.Keys.{has_parts, is_parts, key_parts, with_parts};
ghost use Rattle.farm_rows.specs.Seen.{HasRoom, seen_parts};

use crate::key_parts::key_parts;
use crate::row_key::RowKey;
use arrayvec::ArrayVec;
use indexmap::IndexSet;
use std::alloc::{AllocError, Global};

// So many keys are looked through one by one sooner than by a hash.
const FEW: usize = 8;

/// The keys that were seen so far: a few in a list, many in a hash table.
#[derive(Drop)]
pub(crate) enum SeenKeys {
    Few(ArrayVec<(u8, u32, u32), FEW>),
    Many(IndexSet<(u8, u32, u32)>),
}

impl SeenKeys {
    /// None yet, where at most so many are to come.
    pub(crate) fn make(alloc: Global, most: usize) -> Result<SeenKeys, AllocError>
        ensures none { IfOk result (λ seen. seen_parts seen ≡ []) }
        ensures room { IfOk result (λ seen. HasRoom seen most) }
    {
        if most <= FEW {
            return Ok(SeenKeys::Few(ArrayVec::new()));
        }
        Ok(SeenKeys::Many(IndexSet::with_capacity(alloc, most)?))
    }

    /// Notes the key, and says whether it is a new one.
    pub(crate) fn note(&mut self, key: &RowKey) -> Result<bool, AllocError>
        requires { HasRoom self.old 1 }
        ensures new { IfOk result (λ new. new ≡ not (has_parts (seen_parts self.old) (key_parts key.now))) }
        ensures keys { OnOk result (seen_parts self.new ≡ with_parts (seen_parts self.old) (key_parts key.now)) }
        ensures room { OnOk result ((n : ℕ) → HasRoom self.old (n + 1) → HasRoom self.new n) }
    {
        let parts = key_parts(key);
        match self {
            SeenKeys::Few(few) => Ok(note_few(few, parts)),
            SeenKeys::Many(many) => Ok(many.insert(parts)?),
        }
    }
}

// Notes a key in a list.
fn note_few(seen: &mut ArrayVec<(u8, u32, u32), FEW>, parts: (u8, u32, u32)) -> bool
    requires { array_vec_len seen.old < FEW }
    ensures new { result ≡ not (has_parts seen.old.items parts) }
    ensures keys { seen.new.items ≡ with_parts seen.old.items parts }
    ensures most { array_vec_len seen.new ≤ array_vec_len seen.old + 1 }
{
    if has_parts(seen.as_slice(), &parts) {
        return false;
    }
    seen.push(parts);
    true
}

fn has_parts(seen: &[(u8, u32, u32)], parts: &(u8, u32, u32)) -> bool
    ensures { result ≡ has_parts seen.now parts.now }
{
    seen.iter().any(|other| is_parts(parts, other))
}

fn is_parts(one: &(u8, u32, u32), other: &(u8, u32, u32)) -> bool
    ensures { result ≡ is_parts one.now other.now }
{
    one.0 == other.0 && one.1 == other.1 && one.2 == other.2
}
