//! The job `dot`: a network as Graphviz reads it.

ghost use Rattle.tw_engine.specs.Drawings.{IsGraphed};

use crate::failed::Failed;
use crate::reading::file_in;
use std::alloc::Global;
use std::io::Write;
use tw_dot::write_dot;

/// Does the job `dot` of [`alone`](crate::alone) on a file's bytes. It takes no handle, and so it returns.
///
/// It fails as the table of [`alone`](crate::alone) says.
pub fn dot<W: Write>(alloc: Global, bytes: &[u8], out: &mut W) -> Result<(), Failed>
    ensures { IsGraphed bytes.now result (W.contents out.old) (W.contents out.new) }
{
    let file = file_in(alloc, bytes)?;
    match write_dot(alloc, &file.value, out) {
        Ok(()) => Ok(()),
        Err(why) => Err(Failed::from(why)),
    }
}
