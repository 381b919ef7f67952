//! The pool of a job: searches of sets between two tasks.
ghost use Rattle.std.specs.Prelude.{◌≡◌, IfOk, IfSome};

use crate::known::KnownSets;
use crate::shared::SharedSets;
use box_instances::{BoxSet, Instance, NoMemory};
use class_search::are_same_instances;
use edge_state::EdgeState;
use rule_closure::Closer;
use std::alloc::Global;
use std::hint::spin_loop;
use std::marker::Model;
use std::sync::{Arc, Mutex, MutexGuard};

// Capacity of the pool: the greatest number of workers.
const MOST_IDLE: usize = 64;

// Lock attempts before giving up. A holder pushes or pops one search, which takes less time than
// this many attempts.
const MAX_LOCK_TRIES: u32 = 10_000;

// The parts of a search whose task is done, without its pool. It is seen as that search.
#[derive(Drop)]
pub(crate) struct IdleSearch<'a> {
    pub(crate) whole: &'a Instance,
    pub(crate) scales: bool,
    pub(crate) set: BoxSet<'a>,
    pub(crate) state: EdgeState,
    pub(crate) closers: Vec<Closer>,
    pub(crate) own: KnownSets<'a>,
    pub(crate) shared: Arc<SharedSets<'a>, Global>,
    pub(crate) spare: Vec<u32>,
}

impl<'a> Model for IdleSearch<'a> {
    ghost use Rattle.std.specs.Prelude.{◌≡◌};
    ghost use Rattle.set_search.specs.Searches.{PlainSetSearch, HasRoom};

    ghost Value = { PlainSetSearch };

    ghost view = { λ s. record { instance = s.whole.now; scales = s.scales } };

    ghost invariant = { λ s. HasRoom s.whole.now s.set.whole s.state s.closers.items
        × (s.own ≡ record { instance = s.whole.now; scales = s.scales }) };
}

impl<'a> IdleSearch<'a> {
    // The parts of a search that has decided nothing, with the sets that it keeps and shares.
    pub(crate) fn new(
        alloc: Global,
        instance: &'a Instance,
        scales: bool,
        own: KnownSets<'a>,
        shared: Arc<SharedSets<'a>, Global>,
    ) -> Result<IdleSearch<'a>, NoMemory>
        requires { own ≡ record { instance = instance.now; scales = scales } }
        ensures { IfOk result (λ s. s ≡ record { instance = instance.now; scales = scales }) }
    {
        let set = BoxSet::all(alloc, instance)?;
        let state = EdgeState::new(alloc, instance.dims(), instance.len())?;
        Ok(IdleSearch {
            whole: instance,
            scales,
            set,
            state,
            closers: Vec::new(alloc),
            own,
            shared,
            spare: Vec::new(alloc),
        })
    }

    // Returns the search, if it is of this instance and choice of scales.
    fn into_search_of(self, instance: &Instance, scales: bool) -> Option<IdleSearch<'a>>
        ensures { IfSome result
            (λ s. s ≡ record { instance = instance.now; scales = scales }) }
    {
        let is_same = self.scales == scales && are_same_instances(self.whole, instance);
        if !is_same {
            return None;
        }
        Some(self)
    }
}

// The pool. Nothing is known of what it holds, so a search is tested as it is taken out. No call
// waits: while another worker stays in the pool, none is taken out, and one that is put in is lost.
#[derive(Drop)]
pub(crate) struct SearchPool<'a> {
    idle: Mutex<Vec<IdleSearch<'a>>>,
}

impl<'a> SearchPool<'a> {
    // An empty pool.
    pub(crate) fn new(alloc: Global) -> SearchPool<'a> {
        SearchPool {
            idle: Mutex::new(Vec::new(alloc)),
        }
    }

    // Locks the pool, unless another worker stays in it.
    fn enter(&self) -> Option<MutexGuard<'_, Vec<IdleSearch<'a>>>> {
        for _ in 0..MAX_LOCK_TRIES {
            if let Some(guard) = self.idle.try_lock() {
                return Some(guard);
            }
            spin_loop();
        }
        None
    }

    // Pops the search that was put in last.
    fn pop(&self) -> Option<IdleSearch<'a>> {
        let mut guard = self.enter()?;
        let idle = &mut *guard;
        idle.pop()
    }

    // Pops the last search, and returns it if it is of this instance and choice of scales.
    pub(crate) fn take(&self, instance: &Instance, scales: bool) -> Option<IdleSearch<'a>>
        ensures { IfSome result
            (λ s. s ≡ record { instance = instance.now; scales = scales }) }
    {
        self.pop()?.into_search_of(instance, scales)
    }

    // Pushes a search, unless the pool is full or in use.
    pub(crate) fn put(&self, search: IdleSearch<'a>) {
        let Some(mut guard) = self.enter() else {
            return;
        };
        let idle = &mut *guard;
        if idle.len() < MOST_IDLE {
            // Without memory for its slot the search is lost, and nothing else.
            let _is_kept = idle.push(search).is_ok();
        }
    }
}
