//! A cache of documents.

ghost use Rattle.std.specs.Prelude.{◌≡◌, [], IfOk, OnErr, OnOk, option_copied, option_map};
ghost use Rattle.std.specs.Borrow.{sem};
ghost use Rattle.std.specs.Io.BufRead.{Rests};
ghost use Rattle.document_cache.specs.Caching.{brought_to_front, cached_under, kept_in_front};
ghost use Rattle.document_cache.specs.CacheViews.{entry_under};
ghost use Rattle.document_cache.specs.contracts.caches.Cache.{the_row};

use crate::keys::CacheKey;
use bml_bytes::NoMemory;
use document_load::Document;
use lru::LruCache;
use multipart_entities::Path;
use std::alloc::Global;
use std::marker::Model;
use std::num::NonZeroUsize;

/// The most documents that are kept. This limit is this project's own.
pub const MOST_DOCUMENTS: usize = 8;

/// A document that was loaded, with the paths of the resources that it needed, each with the number
/// by which a store tells which bytes it saw there, if any.
#[derive(Drop)]
pub struct Cached {
    pub needs: Vec<(Path, Option<u64>)>,
    pub document: Document,
}

/// Documents that were loaded. Contracts see the list of them, the one that was used last in front.
#[derive(Drop)]
pub struct Cache {
    documents: LruCache<CacheKey, Cached>,
}

impl Model for Cache {
    ghost use Rattle.std.specs.Prelude.{◌≡◌, List, map};
    ghost use Rattle.document_cache.specs.Caching.{Entry, most_documents};
    ghost use Rattle.document_cache.specs.CacheViews.{entry_of};

    ghost Value = { List Entry };

    ghost view = { λ cache. map entry_of cache.documents.entries };

    ghost invariant = { λ cache. cache.documents.cap ≡ most_documents };
}

impl Cache {
    /// A cache without documents.
    pub fn new(alloc: Global) -> Result<Cache, NoMemory>
        ensures { IfOk result (λ cache. cache ≡ []) }
    {
        let most = NonZeroUsize::new(MOST_DOCUMENTS).unwrap();
        let documents = LruCache::new(alloc, most)?;
        Ok(Cache { documents })
    }

    /// What is kept under a key. The order stays as it is.
    pub fn peek(&self, key: &CacheKey) -> Option<&Cached>
        ensures { option_map (entry_under key.now) (option_copied result)
            ≡ cached_under key.now self.now }
    {
        self.documents.peek(key)
    }

    /// What is kept under a key, which comes to the front.
    pub fn find(&mut self, key: &CacheKey) -> Option<&Cached>
        ensures found { option_map (entry_under key.now) (option_copied result)
            ≡ cached_under key.now self.old }
        ensures* front { sem 𝓛 (Rests the_row self.entry
            (λ new. new ≡ brought_to_front key.now self.old)) }
    {
        self.bring_to_front(key);
        self.peek(key)
    }

    /// Keeps a document in front, in place of one with that key. Of more than 8 documents the last
    /// is dropped. For want of memory the document itself is dropped, and those that are kept stay
    /// as they were.
    pub fn keep(&mut self, key: CacheKey, cached: Cached) -> Result<(), NoMemory>
        ensures ok { OnOk result (self.new ≡ kept_in_front (entry_under key cached) self.old) }
        ensures err { OnErr result (self.new ≡ self.old) }
    {
        // tells that the keys differ
        let _count = self.documents.len();
        self.documents.put(key, cached)?;
        Ok(())
    }

    // Brings what is kept under a key to the front.
    fn bring_to_front(&mut self, key: &CacheKey)
        ensures { self.new ≡ brought_to_front key.now self.old }
    {
        // tells that the keys differ
        let _count = self.documents.len();
        self.documents.promote(key);
    }
}
