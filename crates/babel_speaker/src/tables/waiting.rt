//! A queue that is kept in a ring.

ghost use Rattle.std.specs.Prelude.{◌≡◌, ◌≤◌, ◌<◌, ◌-◌, [], ◌∷◌, ◌++◌, drop, length, slice_get, IfOk, IsTrue, IsFalse};
ghost use Rattle.circular_buffer.specs.Buffer.{keep_last};
ghost use Rattle.babel_state.specs.Limits.{most_pending};

use babel_state::MAX_PENDING;
use circular_buffer::HeapCircularBuffer;
use std::alloc::{AllocError, Global};
use std::marker::Model;

/// A queue of at most 4,096 elements.
///
/// An element that is removed stays at its place until all are, or until the place is needed. So
/// the first places are used again and again, and the others are touched only if that many
/// elements wait.
#[derive(Drop)]
pub struct Waiting<T: Copy> {
    ring: HeapCircularBuffer<T>,
    /// How many of the oldest were removed. If all were, the ring is empty.
    removed: usize,
}

impl<T: Copy> Model for Waiting<T> {
    ghost use Rattle.std.specs.Prelude.{◌≡◌, ◌≤◌, ◌-◌, List, drop, length};
    ghost use Rattle.std.specs.Coded.{coded_list};
    ghost use Rattle.babel_state.specs.Limits.{most_pending};

    ghost Value = { List T };

    ghost coded = { coded_list T.code };

    ghost view = { λ w. drop w.removed w.ring.items };

    ghost invariant = { λ w. (w.ring.capacity ≡ most_pending) × (w.removed ≤ length w.ring.items - 1) };
}

impl<T: Copy> Waiting<T> {
    /// No elements, with the room for all that there may be.
    pub fn new(alloc: Global) -> Result<Waiting<T>, AllocError>
        ensures { IfOk result (λ waiting. waiting ≡ []) }
    {
        let ring = HeapCircularBuffer::with_capacity(alloc, MAX_PENDING)?;
        Ok(Waiting { ring, removed: 0 })
    }

    /// Removes all elements. Their room stays.
    pub fn clear(&mut self)
        ensures { self.new ≡ [] }
    {
        self.ring.clear();
        self.removed = 0;
    }

    /// Queues an element. If 4,096 wait, the oldest one is dropped, and the result is `true`.
    pub fn push(&mut self, element: T) -> bool
        ensures elements { self.new ≡ keep_last most_pending (self.old ++ element ∷ []) }
        ensures full { IsTrue result → length self.old ≡ most_pending }
        ensures room { IsFalse result → length self.old < most_pending }
    {
        let full = self.ring.len() == MAX_PENDING;
        self.ring.push_back(element);
        if !full {
            return false;
        }
        // The ring gave up its first element: one that was removed, or else the oldest one.
        if self.removed > 0 {
            self.removed -= 1;
            return false;
        }
        true
    }

    /// Queues an element if the ring has a place for it. If not, nothing has changed.
    #[inline(always)]
    pub fn try_push_back(&mut self, element: T) -> bool
        ensures queued { IsTrue result → self.new ≡ self.old ++ element ∷ [] }
        ensures room { IsTrue result → length self.old < most_pending }
        ensures full { IsFalse result → self.new ≡ self.old }
    {
        match self.ring.try_push_back(element) {
            Ok(()) => true,
            Err(_) => false,
        }
    }

    /// Drops the oldest elements until at most `room` wait. The result is how many were dropped.
    /// After it the ring has a place for each further one, up to 4,096.
    pub fn keep_last(&mut self, room: usize) -> usize
        ensures elements { self.new ≡ keep_last room self.old }
        ensures count { result ≡ length self.old - room }
        ensures within { length self.old ≤ most_pending }
    {
        let len = self.ring.len();
        if len <= room {
            return 0;
        }
        let gone = len - room;
        self.ring.truncate_front(room);
        // Those that were removed already are the first to go.
        if gone <= self.removed {
            self.removed -= gone;
            return 0;
        }
        let dropped = gone - self.removed;
        self.removed = 0;
        dropped
    }

    /// The oldest element.
    pub fn front(&self) -> Option<T>
        ensures { result ≡ slice_get self.now 0 }
    {
        self.ring.get(self.removed).copied()
    }

    /// Removes the oldest element, if there is one.
    pub fn pop(&mut self)
        ensures { self.new ≡ drop 1 self.old }
    {
        let left = self.ring.len() - self.removed;
        if left > 1 {
            self.removed += 1;
        } else {
            self.ring.clear();
            self.removed = 0;
        }
    }

    /// How many elements wait.
    pub fn len(&self) -> usize
        ensures len { result ≡ length self.now }
        ensures within { result ≤ most_pending }
    {
        self.ring.len() - self.removed
    }

    /// Whether no element waits.
    #[inline(always)]
    pub fn is_empty(&self) -> bool
        ensures empty { IsTrue result → self.now ≡ [] }
        ensures some { IsFalse result → 0 < length self.now }
        ensures within { length self.now ≤ most_pending }
    {
        self.ring.len() == 0
    }
}
