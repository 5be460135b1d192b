//! The items that wait to be sent, the oldest first.

ghost use Rattle.std.specs.Prelude.{◌≡◌, ◌≤◌, ◌<◌, ◌+◌, List, [], ◌∷◌, ◌++◌, map, drop, length, slice_get, IfOk, IsTrue, IsFalse};
ghost use Rattle.babel_state.specs.Grouping.{in_groups, most_groups};
ghost use Rattle.babel_state.specs.Queueing.{queued};
ghost use Rattle.babel_state.specs.Limits.{most_pending};
ghost use Rattle.babel_state.specs.declared.items.Item.{Item};
ghost use Rattle.babel_state.specs.declared.items.Item.TheVariants.{Update};
ghost use Rattle.babel_state.specs.declared.items.Target.{Target};
ghost use Rattle.babel_speaker.specs.PendingItems.{updates_only};

use crate::tables::groups::group_items;
use crate::tables::waiting::Waiting;
use crate::tables::{SelectedPrefixes, is_same_target};
use babel_state::{Item, MAX_PENDING, Target};
use babel_value::Prefix;
use std::alloc::{AllocError, Global};
use std::marker::Model;

/// The pending items, at most 4,096, and how many were dropped since there was no room.
///
/// If nothing but Updates to one target is pending, their prefixes alone may be kept, which is
/// a third of the octets. As soon as anything else is queued they are items like all others.
#[derive(Drop)]
pub struct PendingItems {
    items: Waiting<Item>,
    /// The prefixes of Updates to the target. If there are any, there are no items.
    run: Waiting<Prefix>,
    /// Where the Updates of the run go.
    target: Target,
    dropped: u64,
    /// Where items wait while they are grouped.
    spare: Waiting<Item>,
}

impl Model for PendingItems {
    ghost use Rattle.std.specs.Prelude.{◌≡◌, ◌<◌, [], ◌++◌, map, length};
    ghost use Rattle.babel_state.specs.Queueing.{Pending};
    ghost use Rattle.babel_state.specs.declared.items.Item.TheVariants.{Update};

    ghost Value = { Pending };

    ghost view = { λ p. record { items = p.items ++ map (Update p.target) p.run; dropped = p.dropped } };

    ghost invariant = { λ p. 0 < length p.run → p.items ≡ [] };
}

impl PendingItems {
    /// No items, with the room for all that there may be.
    pub fn new(alloc: Global) -> Result<PendingItems, AllocError>
        ensures { IfOk result (λ pending. pending ≡ record { items = []; dropped = 0 }) }
    {
        let items = Waiting::new(alloc)?;
        let run = Waiting::new(alloc)?;
        let spare = Waiting::new(alloc)?;
        Ok(PendingItems {
            items,
            run,
            target: Target { iface: 0, to: None },
            dropped: 0,
            spare,
        })
    }

    /// Removes all items, and forgets how many were dropped. Their room stays.
    pub fn clear(&mut self)
        ensures { self.new ≡ record { items = []; dropped = 0 } }
    {
        self.items.clear();
        self.run.clear();
        self.dropped = 0;
    }

    /// Queues an item. If 4,096 are pending, the oldest one is dropped and counted.
    #[tactic(auto, unfolding(babel_state::specs::Queueing::queued))]
    pub fn push(&mut self, item: Item)
        ensures { self.new ≡ queued (item ∷ []) self.old }
    {
        end_run(&mut self.items, &self.target, &mut self.run);
        if self.items.push(item) {
            self.dropped = self.dropped.saturating_add(1);
        }
    }

    /// The same if the ring has a place for the item. If it returns `false`, nothing has changed.
    #[inline(always)]
    #[tactic(auto, unfolding(babel_state::specs::Queueing::queued))]
    pub fn push_to_place(&mut self, item: Item) -> bool
        ensures queued { IsTrue result → self.new ≡ queued (item ∷ []) self.old }
        ensures full { IsFalse result → self.new ≡ self.old }
    {
        if !self.run.is_empty() {
            return false;
        }
        self.items.try_push_back(item)
    }

    /// Queues an Update.
    pub fn push_update(&mut self, target: &Target, prefix: Prefix)
        ensures { self.new ≡ queued (Update target.now prefix ∷ []) self.old }
    {
        if self.items.is_empty() && is_same_target(&self.target, target) {
            if self.run.try_push_back(prefix) {
                return;
            }
        }
        // The call takes a copy, so that the prefix itself needn't be in memory before.
        let copy = prefix;
        self.push_other_update(target, copy);
    }

    /// Queues an Update that isn't the next one of a run, or for which the ring has no place.
    #[inline(never)]
    fn push_other_update(&mut self, target: &Target, prefix: Prefix)
        ensures { self.new ≡ queued (Update target.now prefix ∷ []) self.old }
    {
        if self.items.is_empty() && self.run.is_empty() {
            self.target = *target;
            self.run.push(prefix);
            return;
        }
        if !self.items.is_empty() || !is_same_target(&self.target, target) {
            self.push(Item::Update {
                target: *target,
                prefix,
            });
            return;
        }
        if self.run.push(prefix) {
            self.dropped = self.dropped.saturating_add(1);
        }
    }

    /// Queues an Update of each of the prefixes. While nothing but Updates to the target is
    /// pending, an Update is its prefix alone, and no target is compared.
    #[inline(never)]
    #[tactic(auto, unfolding(babel_state::specs::Queueing::queued))]
    pub fn push_updates(&mut self, target: &Target, prefixes: SelectedPrefixes<'_>)
        ensures { self.new ≡ queued (map (Update target.now) prefixes.entry) self.old }
    {
        if self.items.is_empty() && is_same_target(&self.target, target) {
            push_to_run(&mut self.run, &mut self.dropped, prefixes);
            return;
        }
        for prefix in prefixes {
            self.push_other_update(target, prefix);
        }
    }

    /// Drops the oldest items for which at least this many new ones leave no room, and counts them,
    /// all at once. If as many are queued then, or more, the same items are pending as without this
    /// call.
    pub fn make_room(&mut self, count: usize)
        ensures { (xs : List Item) → count ≤ length xs → queued xs self.new ≡ queued xs self.old }
    {
        let room = MAX_PENDING.saturating_sub(count);
        let gone = self.items.keep_last(room) + self.run.keep_last(room);
        self.dropped = self.dropped.saturating_add(gone as u64);
    }

    /// Brings the items into groups that go to the same target, in the order of their first items.
    /// Those to a target keep their order.
    pub fn group(&mut self)
        ensures { self.new ≡ record self.old { items = in_groups most_groups self.old.items } }
    {
        // A run goes to one target.
        if self.run.is_empty() {
            group_items(&mut self.items, &mut self.spare);
        }
    }

    /// The oldest item.
    pub fn front(&self) -> Option<Item>
        ensures { result ≡ slice_get self.now.items 0 }
    {
        match self.run.front() {
            Some(prefix) => Some(Item::Update {
                target: self.target,
                prefix,
            }),
            None => self.items.front(),
        }
    }

    /// Removes the oldest item, if there is one.
    pub fn pop(&mut self)
        ensures { self.new ≡ record self.old { items = drop 1 self.old.items } }
    {
        if self.run.is_empty() {
            self.items.pop();
        } else {
            self.run.pop();
        }
    }

    /// How many items are pending.
    pub fn len(&self) -> usize
        ensures len { result ≡ length self.now.items }
        ensures within { result ≤ MAX_PENDING }
    {
        self.items.len() + self.run.len()
    }

    /// How many items were dropped since there was no room.
    pub fn dropped(&self) -> u64
        ensures { result ≡ self.now.dropped }
    {
        self.dropped
    }
}

/// Queues an Update of each of the prefixes to the target of the run, while there are no items. An
/// Update that is dropped is counted.
#[inline(always)]
#[tactic(auto, unfolding(babel_state::specs::Queueing::queued))]
fn push_to_run(run: &mut Waiting<Prefix>, dropped: &mut u64, prefixes: SelectedPrefixes<'_>)
    ensures { (target : Target) → updates_only target run.new dropped.new ≡ queued (map (Update target) prefixes.entry) (updates_only target run.old dropped.old) }
{
    for prefix in prefixes {
        push_to_place(run, dropped, prefix);
    }
}

/// The same of one Update.
#[inline(always)]
fn push_to_place(run: &mut Waiting<Prefix>, dropped: &mut u64, prefix: Prefix)
    ensures { (target : Target) → updates_only target run.new dropped.new ≡ queued (Update target prefix ∷ []) (updates_only target run.old dropped.old) }
{
    // That it is a number of 64 bits is known of a count that is read.
    let _count = *dropped;
    if !run.try_push_back(prefix) {
        // The call takes a copy, so that the prefix itself needn't be in memory before.
        let copy = prefix;
        push_to_full(run, dropped, copy);
    }
}

/// The same where the ring may have no place for it.
#[inline(never)]
fn push_to_full(run: &mut Waiting<Prefix>, dropped: &mut u64, prefix: Prefix)
    ensures { (target : Target) → updates_only target run.new dropped.new ≡ queued (Update target prefix ∷ []) (updates_only target run.old dropped.old) }
{
    let before = *dropped;
    if run.push(prefix) {
        *dropped = before.saturating_add(1);
    }
}

/// Moves the Updates of a run after the items.
#[inline(always)]
fn end_run(items: &mut Waiting<Item>, target: &Target, run: &mut Waiting<Prefix>)
    requires { 0 < length run.old → items.old ≡ [] }
    ensures items { items.new ≡ items.old ++ map (Update target.now) run.old }
    ensures run { run.new ≡ [] }
{
    if !run.is_empty() {
        move_run(items, target, run);
    }
}

/// The same.
#[inline(never)]
fn move_run(items: &mut Waiting<Item>, target: &Target, run: &mut Waiting<Prefix>)
    requires { length items.old + length run.old ≤ most_pending }
    ensures items { items.new ≡ items.old ++ map (Update target.now) run.old }
    ensures run { run.new ≡ [] }
{
    while let Some(prefix) = run.front() {
        items.push(Item::Update {
            target: *target,
            prefix,
        });
        run.pop();
    }
}
