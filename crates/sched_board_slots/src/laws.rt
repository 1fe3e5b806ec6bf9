//! What slots that agree with one another come to.
ghost use Rattle.std.specs.Prelude.{◌≡◌, List, length};
ghost use Rattle.bx_tree.specs.Trees.{Files};
ghost use Rattle.pip_model_types.specs.Makers.{IsPipList};
ghost use Rattle.pip_model.specs.Plans.{PlanData};
ghost use Rattle.sched_core.specs.Sound.{IsSound};
ghost use Rattle.sched_core.specs.Table.{CoreState};
ghost use Rattle.sched_board_slots.specs.Closing.{HoldsOneThread};
ghost use Rattle.sched_board_slots.specs.Graphs.{IsGraphOf};
ghost use Rattle.sched_board_slots.specs.Slots.{AllFit};
ghost use Rattle.sched_board_slots.specs.declared.held.Held.{Held as AnyHeld};

/// Slots that fit the states of a plan's pips and agree with one another hold, over an honest store and without a
/// hash collision, what the sequential build gives.
pub fn slots_follow_one_thread()
    ensures { (plan : PlanData) (tree : Files) (core : CoreState) (slots : List AnyHeld) → IsPipList plan.pips
        → IsGraphOf plan core.nodes → IsSound core → length slots ≡ length plan.pips → AllFit plan tree core.states slots
        → HoldsOneThread plan tree core.states slots }
{}
