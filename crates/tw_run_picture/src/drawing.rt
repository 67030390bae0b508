//! The picture of a run.

ghost use Rattle.std.specs.Prelude.{◌≡◌, ◌≢◌, ◌<◌, ◌↔◌, ◌⊎◌, None, IfErr, IfOk, IsErrOf, length};
ghost use Rattle.tw_network.specs.Contents.{network_of};
ghost use Rattle.tw_run_picture.specs.declared.refused.DrawRefused.TheVariants.{BadTick, WriteFailed};
ghost use Rattle.tw_theory.specs.Simulator.{sequential};
ghost use Rattle.tw_vtime.specs.Stamps.{max_tick};

use crate::lanes::lanes_of;
use crate::refused::DrawRefused;
use crate::subject::Subject;
use crate::whole::make_picture;
use std::alloc::Global;
use std::io::Write;
use tw_atomic::Atomic;
use tw_figures::Labels;
use tw_network::Network;
use tw_rounds::Fault;
use tw_texts::Names;
use tw_vtime::MAX_TICK;

/// Writes a picture of a network's sequential run up to an end tick, as a view shows it, with the names and the figures of its
/// components. At most 20,000 records and 20,000 arrows are shown, in whole rounds. Of a run with more the picture has courses
/// alone, in memory that does not grow with the run; where marks were asked for, the picture and the run end before the round that
/// would pass that. Answers the limit fault that ended the run, if it was reached.
///
/// Refused by [`DrawRefused::BadTick`] (10) exactly where the end tick is above 1,099,511,627,774; by [`DrawRefused::NoSuch`] (15) where
/// no component has one of the names that are to be shown, or none that is shown has the figure; by [`DrawRefused::OutOfMemory`]
/// (4) where a growth of memory was refused; then nothing is written. Refused by [`DrawRefused::WriteFailed`] (24) where the writer
/// failed, and then only the writer knows what it took.
pub fn draw_run<M: Atomic, N: Names, W: Write>(
    alloc: Global,
    network: &Network<M>,
    names: &N,
    labels: &[Labels],
    subject: &Subject<'_>,
    out: &mut W,
) -> Result<Option<Fault>, DrawRefused>
    requires { length labels.now ≡ length network.now.models }
    ensures bad_tick { IsErrOf result BadTick ↔ (max_tick < subject.now.until) }
    ensures fault { let run = sequential (network_of M.meaning network.now) subject.now.until in
        IfOk result (λ fault. (fault ≡ None) ⊎ (fault ≡ run.fault)) }
    ensures unwritten { IfErr result (λ e. e ≢ WriteFailed → out.new ≡ out.old) }
{
    if subject.until > MAX_TICK {
        return Err(DrawRefused::BadTick);
    }
    let Some(lanes) = lanes_of(alloc, network, names, labels, subject.view)? else {
        return Err(DrawRefused::NoSuch);
    };
    let (picture, fault) = make_picture(alloc, network, names, lanes, subject)?;
    let Ok(()) = out.write_all(picture.as_str().as_bytes()) else {
        return Err(DrawRefused::WriteFailed);
    };
    Ok(fault)
}
