//! Items in groups that go to the same target, so that a datagram takes as many of them as fit (RFC
//! 8966, section 4).

ghost use Rattle.std.specs.Prelude.{◌≡◌, ◌≤◌, ◌+◌, ◌++◌, [], filter, take, drop, length};
ghost use Rattle.babel_state.specs.Grouping.{item_target, goes_to, goes_elsewhere, first_group, other_items, in_groups, most_groups};
ghost use Rattle.babel_state.specs.Limits.{most_pending};

use crate::tables::waiting::Waiting;
use crate::tables::{is_same_target, to_all, to_peer};
use babel_state::{Item, Target};

/// How many groups are made at most. What is left after that stays as it was.
pub const MAX_GROUPS: usize = 64;

/// Where the message of an item goes, if it means one.
fn item_target(item: &Item) -> Target
    ensures { result ≡ item_target item.now }
{
    match *item {
        Item::Hello { iface } => to_all(iface),
        Item::Ihu { peer } => to_all(peer.iface),
        Item::Update { target, .. } => target,
        Item::Request { peer, .. } => to_peer(peer),
        Item::Ack { peer, .. } => to_peer(peer),
    }
}

/// Moves all items of a queue to the end of another one.
fn move_all(from: &mut Waiting<Item>, to: &mut Waiting<Item>)
    requires { length to.old + length from.old ≤ most_pending }
    ensures moved { to.new ≡ to.old ++ from.old }
    ensures none { from.new ≡ [] }
{
    while let Some(item) = from.front() {
        to.push(item);
        from.pop();
    }
}

/// Moves the first item of a queue to the end of another one if it goes to the target, and else to
/// the end of its own.
fn move_first(from: &mut Waiting<Item>, to: &mut Waiting<Item>, target: &Target)
    requires { length to.old + length from.old ≤ most_pending }
    ensures from { from.new ≡ drop 1 from.old ++ filter (goes_elsewhere target.now) (take 1 from.old) }
    ensures to { to.new ≡ to.old ++ filter (goes_to target.now) (take 1 from.old) }
{
    let Some(item) = from.front() else {
        return;
    };
    from.pop();
    if is_same_target(target, &item_target(&item)) {
        to.push(item);
    } else {
        from.push(item);
    }
}

/// Moves the items that go where the first one goes to the end of another queue. The others stay,
/// and all keep their order.
fn move_group(from: &mut Waiting<Item>, to: &mut Waiting<Item>)
    requires { length to.old + length from.old ≤ most_pending }
    ensures group { to.new ≡ to.old ++ first_group from.old }
    ensures others { from.new ≡ other_items from.old }
{
    let Some(first) = from.front() else {
        return;
    };
    let target = item_target(&first);
    for _ in 0..from.len() {
        move_first(from, to, &target);
    }
}

/// Brings the items into groups, each as early as its first item was. `spare` is empty then,
/// whatever was there.
pub fn group_items(items: &mut Waiting<Item>, spare: &mut Waiting<Item>)
    ensures { items.new ≡ in_groups most_groups items.old }
{
    if items.is_empty() {
        return;
    }
    spare.clear();
    move_all(items, spare);
    for _ in 0..MAX_GROUPS {
        move_group(spare, items);
    }
    move_all(spare, items);
}
