//! What follows of the engine's contract.

ghost use Rattle.tw_cli.specs.declared.jobs.Job.{Job as TheJob};
ghost use Rattle.tw_engine_laws.specs.OneText.{HasOneText};

use tw_any_model::AnyState;
use tw_file_network::meaning_law;
use tw_laws::couplings::couplings_law;
use tw_script::script_law;

/// What a job writes, its status and its line for standard error are a function of the bytes of its files and of its options, where it
/// is done to its end: two networks that the bytes mean differ in the order of a tree's couplings alone, which is seen nowhere. Of a
/// play this is said where no reply is that a process would hold too many nodes (12), of pictures nothing. It does nothing.
pub fn text_law()
    ensures { (job : TheJob) → HasOneText job }
{
    meaning_law();
    script_law();
    couplings_law::<AnyState>();
}
