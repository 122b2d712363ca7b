//! The law of turns. The function does nothing; its contract is the law.
ghost use Rattle.wf_lanes.specs.Laws.{HaveTurnsOneOrder};

/// Turns have one order: the jobs of each lane say in which order all are served.
pub fn turns_have_one_order()
    ensures { HaveTurnsOneOrder }
{}
