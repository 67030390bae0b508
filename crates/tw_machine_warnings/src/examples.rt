//! Warnings by hand, which the check computes.
ghost use Rattle.tw_machine_warnings.specs.Examples.{no_way, one_line, six_ways};

/// A machine that is wrong in six ways has six warnings, one that is right has none. It does nothing.
pub fn warnings()
    ensures six { six_ways }
    ensures none { no_way }
    ensures line { one_line }
{}
