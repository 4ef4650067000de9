ghost use Rattle.std.specs.Prelude.{◌≡◌, [], IfOk, OnOk, OnErr};
ghost use Rattle.off_kept.specs.Entries.{kept_of, with_first, without_written};

use crate::bodies::KeptBody;
use crate::forgetting::forget_written;
use lru::LruCache;
use off_base::{Mac, NoMemory};
use off_defs::Writes;
use std::alloc::Global;
use std::marker::Model;
use std::num::NonZeroUsize;

// So many modems may have a body that is kept.
const MOST: usize = 512;

/// The bodies of the modems that asked last, at most 512. Contracts see a list of entries, each a
/// modem with what is kept of it, the one that was put last first.
#[derive(Drop)]
pub struct Kept {
    cache: LruCache<Mac, KeptBody>,
}

impl Model for Kept {
    ghost use Rattle.std.specs.Prelude.{◌≡◌};
    ghost use Rattle.off_kept.specs.Entries.{Entries, kept_code};

    ghost Value = { Entries };

    ghost coded = { kept_code };

    ghost view = { λ k. k.cache.entries };

    ghost invariant = { λ k. k.cache.cap ≡ 512 };
}

impl Kept {
    /// Nothing yet, and room in the map for all that may be kept.
    pub fn new(alloc: Global) -> Result<Kept, NoMemory>
        ensures { IfOk result (λ kept. kept ≡ []) }
    {
        let Some(most) = NonZeroUsize::new(MOST) else {
            unreachable!()
        };
        let cache = LruCache::new(alloc, most)?;
        Ok(Kept { cache })
    }

    /// What is kept of a modem, as one more owner of its body. The order stays.
    pub fn find(&self, modem: Mac) -> Result<Option<KeptBody>, NoMemory>
        ensures { IfOk result (λ found. found ≡ kept_of modem self.now) }
    {
        let Some(kept) = self.cache.peek(&modem) else {
            return Ok(None);
        };
        let body = kept.body.share()?;
        Ok(Some(KeptBody {
            subscriber: kept.subscriber,
            class: kept.class,
            body,
        }))
    }

    /// Keeps a modem's body in front of the others, in place of the one that it had. Behind the
    /// 512th entry none stays. After `NoMemory` all is as before.
    pub fn put_first(&mut self, modem: Mac, kept: KeptBody) -> Result<(), NoMemory>
        ensures ok { OnOk result (self.new ≡ with_first modem kept self.old) }
        ensures err { OnErr result (self.new ≡ self.old) }
    {
        // That the keys of the cache differ is told by its length.
        let _len = self.cache.len();
        let is_put = self.cache.put(modem, kept).is_ok();
        if is_put {
            return Ok(());
        }
        Err(NoMemory)
    }

    /// Forgets the bodies of which these writes change a row. The others keep their order. It takes
    /// no memory.
    pub fn forget(&mut self, writes: &Writes)
        ensures { self.new ≡ without_written writes.now self.old }
    {
        forget_written(&mut self.cache, writes);
    }
}
