//! Examples worked by hand, each the contract of a function that does nothing: the definitions give
//! these values.

ghost use Rattle.std.specs.Prelude.{◌≡◌, true, false, [], ◌∷◌, IsTrue};
ghost use Rattle.babel_link.specs.declared.marks.Heard.TheVariants.{Kept, Flush};
ghost use Rattle.babel_link.specs.Histories.{heard_marks, heard_verdict, is_up};
ghost use Rattle.babel_link.specs.Neighbours.{tick_of, cost_of};
ghost use Rattle.babel_examples.specs.LinkExamples.{three_hellos, five_marks, marks_with, one_of_sixteen, neighbour, after_hello, only_multicast, after_ihu};

/// The numbers of the Hellos 65534, 0 and 2 go round the circle. Then one that is 16 past the
/// expected one is kept, and one that is 17 past it flushes.
#[tactic(auto, unfolding(babel_link::specs::Histories::heard_marks, babel_link::specs::Histories::heard_verdict, babel_link::specs::Histories::is_up))]
pub fn worked_marks()
    ensures three { three_hellos ≡ marks_with five_marks 3 }
    ensures up { IsTrue (is_up five_marks) }
    ensures near { heard_verdict 19 three_hellos ≡ Kept }
    ensures near_marks { heard_marks 19 three_hellos ≡ marks_with one_of_sixteen 20 }
    ensures down { is_up one_of_sixteen ≡ false }
    ensures far { heard_verdict 20 three_hellos ≡ Flush }
    ensures far_marks { heard_marks 20 three_hellos ≡ marks_with (true ∷ []) 21 }
{}

/// After the same Hellos, the expected one, and late ones. One that is 17 late flushes.
#[tactic(auto, unfolding(babel_link::specs::Histories::heard_marks, babel_link::specs::Histories::heard_verdict))]
pub fn worked_late_marks()
    ensures expected { heard_marks 3 three_hellos ≡ marks_with (true ∷ five_marks) 4 }
    ensures late { heard_marks 1 three_hellos ≡ marks_with (true ∷ true ∷ false ∷ true ∷ []) 2 }
    ensures later { heard_marks 65535 three_hellos ≡ marks_with (true ∷ true ∷ []) 0 }
    ensures latest { heard_marks 65523 three_hellos ≡ marks_with (true ∷ []) 65524 }
    ensures kept { heard_verdict 65523 three_hellos ≡ Kept }
    ensures too_late { heard_verdict 65522 three_hellos ≡ Flush }
    ensures too_late_marks { heard_marks 65522 three_hellos ≡ marks_with (true ∷ []) 65523 }
{}

/// A Hello with interval 401 at moment 0 is missed from 601 on, and the next one 401 later.
#[tactic(auto, unfolding(babel_link::specs::Histories::missed_marks, babel_link::specs::Histories::has_received, babel_link::specs::Links::hello_link, babel_link::specs::Links::fired_history, babel_link::specs::Links::fired_link, babel_link::specs::Links::unless_silent, babel_link::specs::Links::expired_link, babel_link::specs::Links::ticked_link, babel_link::specs::Neighbours::hello_of, babel_link::specs::Neighbours::tick_of))]
pub fn worked_deadline()
    ensures made { after_hello ≡ only_multicast (true ∷ []) 8 601 }
    ensures before { tick_of 600 after_hello ≡ after_hello }
    ensures due { tick_of 601 after_hello ≡ only_multicast (false ∷ true ∷ []) 9 1002 }
{}

/// An IHU of rxcost 96 with interval 1200 at moment 0 is kept until 4199.
#[tactic(auto, unfolding(babel_link::specs::Histories::heard_marks, babel_link::specs::Histories::is_up, babel_link::specs::Links::later_history, babel_link::specs::Links::hello_link, babel_link::specs::Links::ihu_link, babel_link::specs::Links::fired_history, babel_link::specs::Links::fired_link, babel_link::specs::Links::expired_link, babel_link::specs::Links::ticked_link, babel_link::specs::Links::link_rxcost, babel_link::specs::Links::link_cost, babel_link::specs::Neighbours::hello_of, babel_link::specs::Neighbours::ihu_of, babel_link::specs::Neighbours::tick_of, babel_link::specs::Neighbours::cost_of))]
pub fn worked_ihu()
    ensures now { cost_of neighbour 100 after_ihu ≡ 96 }
    ensures kept { cost_of neighbour 100 (tick_of 4199 after_ihu) ≡ 96 }
    ensures due { cost_of neighbour 100 (tick_of 4200 after_ihu) ≡ 65535 }
{}
