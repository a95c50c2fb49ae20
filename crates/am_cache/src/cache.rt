//! A cache of texts by their views.
ghost use Rattle.std.specs.Prelude.{◌≡◌, [], OnOk, OnErr, IfOk, option_copied};
ghost use Rattle.std.specs.Borrow.{sem};
ghost use Rattle.am_cache.specs.Kept.{kept, text_of, looked_up, with_text};

use crate::view::View;
use am_types::Bytes;
use lru::LruCache;
use std::alloc::{AllocError, Global};
use std::marker::Model;
use std::num::NonZeroUsize;

const MOST_VIEWS: usize = 16;

/// The texts of the 16 views that were used last, and how many looks found one. A look that finds a text and the
/// putting of a text are the uses of a view.
#[derive(Drop)]
pub struct Cache {
    views: LruCache<View, Bytes>,
    hits: u64,
}

impl Model for Cache {
    ghost use Rattle.std.specs.Prelude.{◌≡◌};
    ghost use Rattle.am_cache.specs.Kept.{Kept, kept};

    ghost Value = { Kept };

    ghost view = { λ c. kept c.views.entries c.hits };

    ghost invariant = { λ c. c.views.cap ≡ 16 };
}

impl Cache {
    ghost use Rattle.am_cache.specs.Resting.{RestsLookedUp};

    /// No texts, and no hits.
    pub fn new(alloc: Global) -> Result<Cache, AllocError>
        ensures empty { IfOk result (λ cache. cache ≡ kept [] 0) }
    {
        let most = NonZeroUsize::new(MOST_VIEWS).unwrap();
        Ok(Cache {
            views: LruCache::new(alloc, most)?,
            hits: 0,
        })
    }

    /// How many looks found a text. The number stands still at 2^64 - 1.
    pub fn hits(&self) -> u64
        ensures hits { result ≡ self.now.hits }
    {
        self.hits
    }

    /// Looks for the text of the view. If it is kept, the view is from now on the one that was used last, and the look
    /// counts as a hit; if not, nothing changes.
    pub fn get(&mut self, view: &View) -> Option<&Bytes>
        ensures* after { sem 𝓛 (RestsLookedUp view.now self.entry) }
        ensures text { option_copied result ≡ text_of view.now self.old }
    {
        self.note_look(view);
        self.views.peek(view)
    }

    // A look that finds its text is a use of the view, and a hit.
    #[tactic(auto, using(crate::proofs::Looking::looked_up_test))]
    fn note_look(&mut self, view: &View)
        ensures { self.new ≡ looked_up view.now self.old }
    {
        if self.views.promote(view) {
            self.hits = self.hits.saturating_add(1);
        }
    }

    /// Keeps the text for the view, in place of any that it had. The view is from now on the one that was used last; of
    /// seventeen the one that was used least recently goes. Without memory the cache keeps what it kept, and the text is
    /// dropped.
    pub fn put(&mut self, view: View, text: Bytes) -> Result<(), AllocError>
        ensures ok { OnOk result (self.new ≡ with_text view text self.old) }
        ensures err { OnErr result (self.new ≡ self.old) }
    {
        // Says that no more views are kept than may be.
        let _count = self.views.len();
        self.views.put(view, text)?;
        Ok(())
    }
}
