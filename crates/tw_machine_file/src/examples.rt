//! Machines by hand, which the check computes.
ghost use Rattle.tw_machine_file.specs.Examples.{
  EmptyList,
  Gives,
  Limited,
  ListAsConstant,
  ListForNumber,
  MachineTwice,
  MissingParameter,
  MoreThanParameters,
  NameOfTwoKinds,
  NoName,
  NumberForList,
  OpenProgram,
  QueueOfThree,
  QueueTwice,
  ReservedRegister,
  Source,
};
ghost use Rattle.tw_machine_file.specs.SharedExamples.{Hidden, Left, Named, Part, Refused, Says};
ghost use Rattle.tw_machine_file.specs.TimerExamples.{EndWritten, InternalWritten, TestWritten};

/// What a value declares, and what is the first thing that is wrong with eight others.
pub fn machines()
    ensures source { Source }
    ensures no_name { NoName }
    ensures machine_twice { MachineTwice }
    ensures reserved_register { ReservedRegister }
    ensures list_as_constant { ListAsConstant }
    ensures queue_of_three { QueueOfThree }
    ensures name_of_two_kinds { NameOfTwoKinds }
    ensures open_program { OpenProgram }
    ensures queue_twice { QueueTwice }
{}

/// What a component gives, and what is wrong with five others.
pub fn components()
    ensures gives { Gives }
    ensures list_for_number { ListForNumber }
    ensures number_for_list { NumberForList }
    ensures empty_list { EmptyList }
    ensures missing_parameter { MissingParameter }
    ensures more_than_parameters { MoreThanParameters }
{}

/// Whether a machine that is too large where it makes a turn is taken: not by itself, and of a component by what this
/// gives.
pub fn limits()
    ensures { Limited }
{}

/// What a machine with timers does, and when its outputs are sent, is what the language says by texts.
pub fn timers()
    ensures end { EndWritten }
    ensures internal { InternalWritten }
    ensures test { TestWritten }
{}

/// What files say once, what a machine has of it, and what is wrong with others.
pub fn shared()
    ensures says { Says }
    ensures part { Part }
    ensures left { Left }
    ensures hidden { Hidden }
    ensures named { Named }
    ensures refused { Refused }
{}
