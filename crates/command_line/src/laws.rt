ghost use Rattle.command_line.specs.AnyOrder.{StandAtMostOnce, StandInAnyOrder};

/// A law of the definitions: behind the operands of a command the options stand in any order, each at most once.
///
/// It runs nothing: its contract is the law.
pub fn options_stand_in_any_order()
    ensures any_order { StandInAnyOrder }
    ensures at_most_once { StandAtMostOnce }
{}
