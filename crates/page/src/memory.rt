//! What a page remembers of its loads.

ghost use Rattle.std.specs.Prelude.{◌≡◌, ◌&&◌, [], true, All, IfOk, IfSome, OnOk, Some, is_some, map, option_map};
ghost use Rattle.document_cache.specs.Caching.{cached_under};
ghost use Rattle.std.specs.List.{list_all};
ghost use Rattle.document_load.specs.ToldDocuments.{told_document};
ghost use Rattle.module_locks.specs.Standing.{ForModules};
ghost use Rattle.page.specs.Remembering.{is_same_number, number_at, tells_delivery};
ghost use Rattle.page.specs.devices.Memories.{FindsUsable, FitsModule, HasPlaces, Recalls, UsesAgain, entries_with, is_as_kept as spec_is_as_kept, key_of as spec_key_of, memory_with, numbered as spec_numbered, usable_under};
ghost use Rattle.page.specs.Loading.{is_settled as spec_is_settled};
ghost use Rattle.module_store.specs.Resources.{resource_of};

use bml_bytes::NoMemory;
use document_cache::{Cache, CacheKey, Cached};
use document_load::Document;
use module_locks::{Look, Modules};
use multipart_entities::Path;
use std::alloc::Global;
use std::marker::Model;

/// The documents of the loads that a page remembers, and how many of its loads were of one of them.
#[derive(Drop)]
pub struct Memory {
    cache: Cache,
    hits: u64,
}

impl Model for Memory {
    ghost use Rattle.std.specs.Prelude.{All};
    ghost use Rattle.page.specs.devices.Memories.{HasPlaces, MemoryState, memory_with};

    ghost Value = { MemoryState };

    ghost view = { λ memory. memory_with memory.cache memory.hits };

    ghost invariant = { λ memory. All (λ entry. HasPlaces entry.document) memory.cache };
}

impl Memory {
    /// Nothing is remembered.
    pub fn new(alloc: Global) -> Result<Memory, NoMemory>
        ensures { IfOk result (λ memory. memory ≡ memory_with [] 0) }
    {
        let cache = Cache::new(alloc)?;
        Ok(Memory { cache, hits: 0 })
    }

    /// How many loads were of a document that was remembered; the count stands still at 2^64 - 1.
    pub fn hits(&self) -> u64
        ensures { result ≡ self.now.hits }
    {
        self.hits
    }

    /// A copy of the document of the load at a path, where it is remembered, and nothing of it or
    /// of what it needs has come anew. Such a load is counted, and in front then.
    pub fn recall(&mut self, modules: &Modules, path: &Path) -> Result<Option<Document>, NoMemory>
        ensures recalls { IfOk result (λ found. Recalls modules.now path.now
            (option_map told_document found) self.old self.new) }
        ensures places { IfOk result (λ found.
            IfSome found (λ document. HasPlaces (told_document document))) }
    {
        match self.usable_key(modules, path)? {
            Some(key) => self.use_again(&key),
            None => Ok(None),
        }
    }

    // A copy of the document under a key, which is counted, and in front then.
    fn use_again(&mut self, key: &CacheKey) -> Result<Option<Document>, NoMemory>
        ensures used { IfOk result (λ found. UsesAgain key.now
            (option_map told_document found) self.old self.new) }
        ensures places { IfOk result (λ found.
            IfSome found (λ document. HasPlaces (told_document document))) }
    {
        let Some(cached) = self.cache.find(key) else {
            return Ok(None);
        };
        let document = cached.document.copy()?;
        self.hits = self.hits.saturating_add(1);
        Ok(Some(document))
    }

    // The key of the document of the load at a path, where it may be used again.
    fn usable_key(&self, modules: &Modules, path: &Path) -> Result<Option<CacheKey>, NoMemory>
        ensures { IfOk result (λ key. FindsUsable modules.now path.now key self.now.entries) }
    {
        let Some(own) = modules.seen_number(path.component, path.module) else {
            return Ok(None);
        };
        let key = key_of(path, own)?;
        if self.has_usable(modules, &key) {
            Ok(Some(key))
        } else {
            Ok(None)
        }
    }

    // Whether a document is kept under a key that may be used again.
    fn has_usable(&self, modules: &Modules, key: &CacheKey) -> bool
        ensures usable { ForModules modules.now
            (λ modules. result ≡ is_some (usable_under modules self.now.entries key.now)) }
        ensures cached { result ≡ true
            → is_some (cached_under key.now self.now.entries) ≡ true }
    {
        match self.cache.peek(key) {
            Some(cached) => may_be_used(modules, key.own, cached.needs.as_slice()),
            None => false,
        }
    }

    /// Remembers the load of a document at a path, with its needs and the numbers of what is seen
    /// of them, where its module is seen.
    pub fn keep(
        &mut self,
        modules: &Modules,
        path: &Path,
        needs: Vec<(Path, Option<u64>)>,
        document: &Document,
    ) -> Result<(), NoMemory>
        requires { HasPlaces (told_document document.now) }
        ensures { OnOk result (ForModules modules.now (λ modules. self.new ≡ memory_with
            (entries_with (number_at modules path.now) path.now needs.items
            (told_document document.now) self.old.entries) self.old.hits)) }
    {
        let _hits = self.hits;
        let Some(own) = modules.seen_number(path.component, path.module) else {
            return Ok(());
        };
        let key = key_of(path, own)?;
        let document = document.copy()?;
        self.cache.keep(key, Cached { needs, document })
    }
}

/// Needs, each with the number of what is seen of its module.
pub fn numbered(
    alloc: Global,
    modules: &Modules,
    needs: &[Path],
) -> Result<Vec<(Path, Option<u64>)>, NoMemory>
    ensures numbers { IfOk result (λ kept. ForModules modules.now
        (λ modules. kept.items ≡ map (spec_numbered modules) needs.now)) }
    ensures fit { IfOk result (λ kept. All FitsModule needs.now) }
{
    let mut kept = Vec::with_capacity(alloc, needs.len())?;
    'needs: for need in needs {
        let number = modules.seen_number(need.component, need.module);
        kept.push((copy_of(need)?, number))?;
    }
    Ok(kept)
}

fn key_of(path: &Path, own: u64) -> Result<CacheKey, NoMemory>
    ensures { IfOk result (λ key. key ≡ spec_key_of path.now own) }
{
    let path = copy_of(path)?;
    Ok(CacheKey { path, own })
}

// The same path, which shares its name.
fn copy_of(path: &Path) -> Result<Path, NoMemory>
    ensures { IfOk result (λ copy. copy ≡ path.now) }
{
    let name = path.name.share()?;
    Ok(Path {
        component: path.component,
        module: path.module,
        name,
    })
}

// Whether a document whose module had this number may be used again: each of its needs is as it was
// kept, and all of the numbers tell their deliveries.
fn may_be_used(modules: &Modules, own: u64, needs: &[(Path, Option<u64>)]) -> bool
    ensures { ForModules modules.now (λ modules. result
        ≡ (tells_delivery (Some own) && list_all (spec_is_as_kept modules) needs.now)) }
{
    own < u64::MAX && are_as_kept(modules, needs)
}

fn are_as_kept(modules: &Modules, needs: &[(Path, Option<u64>)]) -> bool
    ensures { ForModules modules.now
        (λ modules. result ≡ list_all (spec_is_as_kept modules) needs.now) }
{
    'needs: for need in needs {
        if !is_as_kept(modules, need) {
            return false;
        }
    }
    true
}

// Whether what was seen of a need is seen now, and it isn't waited for.
fn is_as_kept(modules: &Modules, need: &(Path, Option<u64>)) -> bool
    ensures { ForModules modules.now (λ modules. result ≡ spec_is_as_kept modules need.now) }
{
    let seen = modules.seen_number(need.0.component, need.0.module);
    is_kept_number(seen, need.1) && is_settled(modules.resource(&need.0))
}

// Whether a number is the one that was kept, which tells its delivery.
fn is_kept_number(seen: Option<u64>, kept: Option<u64>) -> bool
    ensures { result ≡ (is_same_number seen kept && tells_delivery kept) }
{
    match (seen, kept) {
        (None, None) => true,
        (Some(seen), Some(kept)) => seen == kept && kept < u64::MAX,
        (None, Some(_)) | (Some(_), None) => false,
    }
}

// Whether it is found or missing.
fn is_settled(look: Look<'_>) -> bool
    ensures { result ≡ spec_is_settled (resource_of look.entry) }
{
    match look {
        Look::Found(_) | Look::Missing => true,
        Look::Waiting => false,
    }
}
