//! Four of the built-in models written as machines: what their texts mean, and that nobody can tell them from the models.
//!
//! | Built in | As a machine | File |
//! |---|---|---|
//! | gen | maker | specs/Maker.antt |
//! | tally | adder | specs/Adder.antt |
//! | relay | holder | specs/Holder.antt |
//! | queue | line | specs/Line.antt |
//!
//! Each file has the machine's text, the program that it means, and which of its states stand for which of the model's.
//! So the meaning of machines (`tw_machine/specs`) is tied to that of the models (`tw_models/specs`), which was written
//! first and without it. The hop has no machine here.
//!
//! And `clear`, which the core of the language says by the room of its queue, empties it (specs/Clear.antt).
//!
//! A count from 2^63 on is a negative number in a machine's register, and not in a model's state: words agree as numbers
//! of 64 bits.
#![tactic(auto)]

ghost use Rattle.std.specs.Prelude.{◌≡◌, ◌∷◌, [], ℤ, pos, Ok};
ghost use Rattle.tw_machine.specs.Machine.{machine_meaning};
ghost use Rattle.tw_models.specs.Gen.{gen_meaning};
ghost use Rattle.tw_models.specs.Parameters.{GenParameters, QueueParameters, RelayParameters};
ghost use Rattle.tw_models.specs.Queue.{queue_meaning};
ghost use Rattle.tw_models.specs.Relay.{relay_meaning};
ghost use Rattle.tw_models.specs.Tally.{tally_meaning};
ghost use Rattle.tw_machine_laws.specs.Adder.{adder, adder_text, TallyStands};
ghost use Rattle.tw_machine_laws.specs.Bisimulation.{IsBisimulation};
ghost use Rattle.tw_machine_laws.specs.Clear.{ClearLaw};
ghost use Rattle.tw_machine_laws.specs.Holder.{holder, holder_text, RelayStands};
ghost use Rattle.tw_machine_laws.specs.Line.{line, line_text, QueueStands};
ghost use Rattle.tw_machine_laws.specs.Maker.{maker, maker_text, GenStands};
ghost use Rattle.tw_machine_laws.specs.Networks.{NetworksLaw};
ghost use Rattle.tw_machine_laws.specs.Texts.{means};

/// What is written means the program, with what a component gives.
pub fn texts_law()
    ensures generator { (g : GenParameters) → means maker_text (pos g.period ∷ g.value ∷ []) ≡ Ok (maker g) }
    ensures tally { means adder_text [] ≡ Ok adder }
    ensures relay { (r : RelayParameters) → means holder_text (pos r.delay ∷ []) ≡ Ok (holder r) }
    ensures queue { (q : QueueParameters) → means line_text (pos q.service ∷ []) ≡ Ok (line q) }
{}

/// The machine of each program starts where the model does; in states that stand for one another both wait as long,
/// send the same and show the same words, and each transition leads to such states again.
pub fn models_law()
    ensures generator { (g : GenParameters)
        → IsBisimulation GenStands (gen_meaning g) (machine_meaning (maker g)) }
    ensures tally { IsBisimulation TallyStands tally_meaning (machine_meaning adder) }
    ensures relay { (r : RelayParameters)
        → IsBisimulation RelayStands (relay_meaning r) (machine_meaning (holder r)) }
    ensures queue { (q : QueueParameters)
        → IsBisimulation QueueStands (queue_meaning q) (machine_meaning (line q)) }
{}

/// `clear` leaves no value in its queue.
pub fn clear_law()
    ensures { ClearLaw }
{}

/// Whichever components of a network are replaced by their machines, its sequential run makes the same records, word for
/// word where all words are below 2^63, and ends in the same fault.
pub fn networks_law()
    ensures { NetworksLaw }
{}
