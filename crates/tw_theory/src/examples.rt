//! Worked examples, by which the definitions were reviewed: what they compute is what was written down by hand.

ghost use Rattle.tw_theory.specs.ExampleTraces.{
  GenTally,
  UntilZero,
  NoComponents,
  TwoGens,
  EqualValues,
  RelayMicrostep,
  MicrostepFault,
  MutualConfluent,
  LastTick,
  TickFault,
};
ghost use Rattle.tw_theory.specs.ExampleChains.{ChainOfRelay};
ghost use Rattle.tw_theory.specs.ExampleActions.{
  StragglerOfThree,
  AntiFirst,
  ThreeDeliveryOrders,
  NothingThere,
  GvtSeesOutgoing,
  CommitAndCut,
  MarkAndRewind,
  LazyMatch,
  LazyAnti,
  FaultAtGvt,
};

/// What the sequential simulator records of small networks.
pub fn traces()
    ensures gen_tally { GenTally }
    ensures until_zero { UntilZero }
    ensures no_components { NoComponents }
    ensures two_gens { TwoGens }
    ensures equal_values { EqualValues }
    ensures relay_microstep { RelayMicrostep }
    ensures microstep_fault { MicrostepFault }
    ensures mutual_confluent { MutualConfluent }
    ensures last_tick { LastTick }
    ensures tick_fault { TickFault }
{}

/// What the executive answers to lists of actions on small networks, and what its processes hold then.
pub fn actions()
    ensures straggler_of_three { StragglerOfThree }
    ensures anti_first { AntiFirst }
    ensures three_delivery_orders { ThreeDeliveryOrders }
    ensures nothing_there { NothingThere }
    ensures gvt_sees_outgoing { GvtSeesOutgoing }
    ensures commit_and_cut { CommitAndCut }
    ensures mark_and_rewind { MarkAndRewind }
    ensures lazy_match { LazyMatch }
    ensures lazy_anti { LazyAnti }
    ensures fault_at_gvt { FaultAtGvt }
{}

/// A chain that is worked out from a start, and what is made of it once its process has gone on or a message came.
pub fn chains()
    ensures { ChainOfRelay }
{}
