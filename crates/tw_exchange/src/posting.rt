//! What is posted on the board.

ghost use Rattle.std.specs.Prelude.{◌≡◌};
ghost use Rattle.tw_exchange.specs.Exchanged.{IsNotAhead, posted};

use tw_atomic::Atomic;
use tw_board::Publisher;
use tw_exec::Executive;

/// Posts global virtual time and how many records are committed. No more was posted before, so these are then the greatest.
pub fn post<M: Atomic>(publisher: &mut Publisher, executive: &Executive<M>)
    requires { IsNotAhead publisher.old executive.now }
    ensures { publisher.new ≡ posted executive.now publisher.old }
{
    publisher.post(executive.gvt(), executive.committed_len());
}
