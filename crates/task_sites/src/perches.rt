//! Where harts rest: a hart that finds nothing to do sleeps until another hart wakes it.
//!
//! Why no wake is lost: a hart first announces the site at which it rests, then checks once more what it waits for, and only
//! then sleeps. A waker first makes what the other waits for (a wish, an outcome, an end), and then searches for announced
//! harts. All steps are sequentially consistent, so one of the two sees the other. A waker takes an announcement back as it
//! chooses the hart, and a hart sleeps only while its announcement stands.
//!
//! A wake costs more than a small task, so a wish wakes at most one hart, and none while a hart that is awake searches at the
//! same site. Why no wish is overlooked: the counts of those that search are sequentially consistent too. A hart that ends its
//! search because it rests looks for wishes once more afterwards. A hart that ends its search because it has found tasks, or the
//! end, looks for a further wish if it was the last that searched there, and wakes a hart for it. Who wakes a hart counts it among
//! those that search.

use crossbeam_utils::CachePadded;
use std::alloc::{AllocError, Global};
use std::sync::Wait;
use std::sync::atomic::{AtomicU64, Ordering};

/// Words, each with cache lines of its own.
pub(crate) type PaddedWords = Vec<CachePadded<AtomicU64>>;

/// Makes so many words, each 0.
pub(crate) fn padded_words(alloc: Global, count: usize) -> Result<PaddedWords, AllocError> {
    let mut words = Vec::with_capacity(alloc, count)?;
    for _word in 0..count {
        words.push(CachePadded::new(AtomicU64::new(0)))?;
    }
    Ok(words)
}

/// The words by which the harts of a crew rest.
#[derive(Drop)]
pub(crate) struct Perches {
    // For each hart, one more than the number of the site at which it rests, or 0.
    sites: PaddedWords,
    // The number of harts that have announced that they rest.
    resting: CachePadded<AtomicU64>,
    // For each site, the number of harts that are awake and search at it for a site to enter. Number 0 is the base.
    searching: PaddedWords,
}

impl Perches {
    /// Makes the words for so many harts, each the home of up to so many sites.
    pub(crate) fn new(alloc: Global, harts: u8, levels: u8) -> Result<Perches, AllocError> {
        Ok(Perches {
            sites: padded_words(alloc, harts as usize)?,
            resting: CachePadded::new(AtomicU64::new(0)),
            searching: padded_words(alloc, harts as usize * levels as usize + 1)?,
        })
    }

    /// A hart begins to search at the site.
    pub(crate) fn begin_search(&self, site: u16) {
        if let Some(count) = self.searching.get(site as usize) {
            count.fetch_add(1, Ordering::SeqCst);
        }
    }

    /// A hart ends its search at the site. Returns whether it was the last that searched there.
    pub(crate) fn end_search(&self, site: u16) -> bool {
        match self.searching.get(site as usize) {
            Some(count) => count.fetch_sub(1, Ordering::SeqCst) == 1,
            None => false,
        }
    }

    /// Whether a hart rests at some site.
    pub(crate) fn any_rests(&self) -> bool {
        self.resting.load(Ordering::SeqCst) != 0
    }

    /// Whether no hart searches at the site, and one rests at some site.
    pub(crate) fn is_quiet(&self, site: u16) -> bool {
        if !self.any_rests() {
            return false;
        }
        match self.searching.get(site as usize) {
            Some(count) => count.load(Ordering::SeqCst) == 0,
            None => true,
        }
    }

    /// Announces that the hart rests at the site.
    pub(crate) fn announce(&self, hart: u8, site: u16) {
        if let Some(word) = self.sites.get(hart as usize) {
            word.store(site as u64 + 1, Ordering::SeqCst);
            self.resting.fetch_add(1, Ordering::SeqCst);
        }
    }

    /// Takes the hart's announcement back. Returns whether another hart had chosen to wake this one.
    pub(crate) fn retract(&self, hart: u8) -> bool {
        let Some(word) = self.sites.get(hart as usize) else {
            return false;
        };
        let shown = word.swap(0, Ordering::SeqCst);
        self.resting.fetch_sub(1, Ordering::SeqCst);
        shown == 0
    }

    /// Sleeps until another hart has chosen to wake this one.
    pub(crate) fn sleep<R: Wait>(&self, rt: &R, hart: u8) {
        let Some(word) = self.sites.get(hart as usize) else {
            return;
        };
        'looks: for _ in rt.forever() {
            let shown = word.load(Ordering::SeqCst);
            if shown == 0 {
                return;
            }
            word.park(rt, (shown % 4_294_967_296) as u32);
        }
        unreachable!()
    }

    /// Wakes a hart that rests at the site, if there is one and no hart searches there, to search for a site to enter.
    pub(crate) fn wake_searcher<R: Wait>(&self, rt: &R, site: u16) {
        'tries: for _ in rt.forever() {
            if !self.has_missed(site) {
                return;
            }
        }
        unreachable!()
    }

    // Wakes a hart that rests at the site. Returns whether that hart was awake already and no hart searches there now.
    fn has_missed(&self, site: u16) -> bool {
        for word in &self.sites {
            match self.wake_at(word, site) {
                Try::Woken => return false,
                Try::Missed => return true,
                Try::Elsewhere => {}
            }
        }
        false
    }

    /// Wakes up to `count` of the harts that rest at the site, because it ends.
    pub(crate) fn wake(&self, site: u16, count: usize) {
        if !self.any_rests() {
            return;
        }
        let mut left = count;
        for word in &self.sites {
            if left == 0 {
                return;
            }
            if self.wake_at(word, site) == Try::Woken {
                left -= 1;
            }
        }
    }

    /// Wakes the hart if it rests at the site.
    pub(crate) fn wake_hart<R: Wait>(&self, rt: &R, hart: u8, site: u16) {
        if !self.any_rests() {
            return;
        }
        if let Some(word) = self.sites.get(hart as usize) {
            if self.wake_at(word, site) == Try::Missed {
                self.wake_searcher(rt, site);
            }
        }
    }

    // Wakes the hart whose word it is, if it rests at the site. Why it counts the hart first: the hart may end its search at once.
    fn wake_at(&self, word: &AtomicU64, site: u16) -> Try {
        let shown = site as u64 + 1;
        if word.load(Ordering::SeqCst) != shown {
            return Try::Elsewhere;
        }
        self.begin_search(site);
        let chosen = word.compare_exchange(shown, 0, Ordering::SeqCst, Ordering::SeqCst);
        if chosen.is_ok() {
            word.wake_one();
            return Try::Woken;
        }
        if self.end_search(site) {
            Try::Missed
        } else {
            Try::Woken
        }
    }
}

/// The result of a try to wake a hart at a site.
#[derive(Clone, Copy, PartialEq, Eq)]
enum Try {
    /// The hart wakes, or another hart searches at the site.
    Woken,
    /// The hart was awake already, and no hart searches at the site. A hart may have counted on this one in between.
    Missed,
    /// The hart doesn't rest at the site.
    Elsewhere,
}
