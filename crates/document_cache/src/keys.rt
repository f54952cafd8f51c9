//! Under what a document is kept.

use multipart_entities::Path;
use std::hash::{Hash, Hasher};

/// Under what a document is kept: the path at which it lies, and the number by which a store tells
/// which bytes it saw there.
#[derive(Drop)]
pub struct CacheKey {
    pub path: Path,
    pub own: u64,
}

impl PartialEq for CacheKey {
    ghost use Rattle.document_cache.specs.Caching.{is_same_key};
    ghost use Rattle.document_cache.specs.devices.KeyLaws.{is_same_key-equiv};
    ghost use Rattle.std.specs.Cmp.{partial_equiv_from_equiv};

    ghost eq = { is_same_key };

    ghost laws = { partial_equiv_from_equiv is_same_key-equiv };

    fn eq(&self, other: &CacheKey) -> bool {
        self.own == other.own
            && self.path.component == other.path.component
            && self.path.module == other.path.module
            && self.path.name == other.path.name
    }
}

impl Eq for CacheKey {
    ghost use Rattle.document_cache.specs.devices.KeyLaws.{is_same_key-equiv};

    ghost laws = { is_same_key-equiv };
}

impl Hash for CacheKey {
    ghost use Rattle.std.specs.Prelude.{◌++◌};
    ghost use Rattle.std.specs.Hash as fed;
    ghost use Rattle.bml_bytes.specs.devices.Hashes.{text_hash};
    ghost use Rattle.document_cache.specs.devices.KeyLaws.{is_same_key-true};
    ghost use Rattle.std.proofs.Common.{ap};

    ghost hash_input = { λ key. fed.u64 key.own ++ fed.u8 key.path.component
        ++ fed.u16 key.path.module ++ fed.u64 (text_hash key.path.name) };

    ghost respects_eq = { λ key other same. ap (λ k. fed.u64 k.own ++ fed.u8 k.path.component
        ++ fed.u16 k.path.module ++ fed.u64 (text_hash k.path.name))
        (is_same_key-true key other same) };

    fn hash<H: Hasher>(&self, state: &mut H) {
        state.write_u64(self.own);
        state.write_u8(self.path.component);
        state.write_u16(self.path.module);
        self.path.name.hash(state);
    }
}
