//! The list of pending items.

ghost use Rattle.std.specs.Prelude.{◌≡◌, [], ◌∷◌, length, slice_get, Some};
ghost use Rattle.babel_state.specs.declared.items.Item.TheVariants.{Hello, Ihu, Update, Request, Ack};
ghost use Rattle.babel_state.specs.Grouping.{in_groups, items_grouped};
ghost use Rattle.babel_examples.specs.CallExamples.{ack, queued_acks};
ghost use Rattle.babel_examples.specs.ExampleStates.{peer, ten, ten_of, net, to_all, to_one, start, with_pending, queued_items};

/// There is room for 4,096 items; with one more the oldest is dropped.
pub fn oldest_item_is_dropped()
    ensures full { (queued_acks 4096).dropped ≡ 0 }
    ensures dropped { (queued_acks 4097).dropped ≡ 1 }
    ensures length { length (queued_acks 4097).items ≡ 4096 }
    ensures first { slice_get (queued_acks 4097).items 0 ≡ Some (ack 1) }
{}

/// Updates that go over two interfaces in turn become two groups, each in its order. A Hello and an
/// IHU go with the updates to all on their interface, and what goes to a neighbour alone is a group
/// of its own.
pub fn items_in_groups()
    ensures grouped { queued_items (items_grouped (with_pending (Update (to_all 0) ten ∷ Update (to_all 1) ten ∷ Request (peer 1) (ten_of 1) 6 64 ∷ Hello 0 ∷ Update (to_all 0) (net 1) ∷ Update (to_all 1) (net 1) ∷ Ack (peer 1) 7 ∷ Ihu (peer 1) ∷ []) start)) ≡ Update (to_all 0) ten ∷ Hello 0 ∷ Update (to_all 0) (net 1) ∷ Ihu (peer 1) ∷ Update (to_all 1) ten ∷ Update (to_all 1) (net 1) ∷ Request (peer 1) (ten_of 1) 6 64 ∷ Ack (peer 1) 7 ∷ [] }
    ensures one_target { queued_items (items_grouped (with_pending (Update (to_one 1) ten ∷ Update (to_one 1) (net 1) ∷ []) start)) ≡ Update (to_one 1) ten ∷ Update (to_one 1) (net 1) ∷ [] }
    ensures first_group_alone { in_groups 1 (Hello 0 ∷ Hello 1 ∷ Hello 2 ∷ Hello 1 ∷ Hello 0 ∷ []) ≡ Hello 0 ∷ Hello 0 ∷ Hello 1 ∷ Hello 2 ∷ Hello 1 ∷ [] }
    ensures none { in_groups 64 [] ≡ [] }
{}
