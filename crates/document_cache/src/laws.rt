//! What holds of documents that are kept, whatever they are.

ghost use Rattle.std.specs.Prelude.{◌≡◌, ◌≤◌, ◌⊎◌, List, Some, Contains, length};
ghost use Rattle.document_cache.specs.Caching.{Entry, brought_to_front, cached_under, kept_in_front, most_documents};
ghost use Rattle.document_cache.specs.declared.keys.CacheKey.{CacheKey};

/// What is found under a key is one of those that are kept, and has that key. A document that is
/// kept is found from then on; each of the others was kept before, and there are at most 8. A use
/// brings in none.
pub fn law_of_caching()
    ensures found { (key : CacheKey) (entries : List Entry) (entry : Entry) →
        cached_under key entries ≡ Some entry → (entry.key ≡ key) × Contains entries entry }
    ensures used { (key : CacheKey) (entries : List Entry) (entry : Entry) →
        Contains (brought_to_front key entries) entry → Contains entries entry }
    ensures newest { (kept : Entry) (entries : List Entry) →
        cached_under kept.key (kept_in_front kept entries) ≡ Some kept }
    ensures others { (kept : Entry) (entries : List Entry) (entry : Entry) →
        Contains (kept_in_front kept entries) entry → (kept ≡ entry) ⊎ Contains entries entry }
    ensures few { (kept : Entry) (entries : List Entry) →
        length (kept_in_front kept entries) ≤ most_documents }
{}
