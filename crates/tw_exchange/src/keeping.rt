//! How the agenda keeps up with the executive.

ghost use Rattle.std.specs.Prelude.{◌≡◌, false, length, replicate, slice_set};
ghost use Rattle.tw_exchange.specs.Exchanged.{IsExact, IsExactBut, busy_in};

use crate::agenda::Agenda;
use tw_atomic::Atomic;
use tw_exec::Executive;

/// Every component is free, under its next stamp.
pub(crate) fn free_all<M: Atomic>(agenda: &mut Agenda, executive: &Executive<M>)
    requires { length agenda.old ≡ length executive.now.network.models }
    ensures exact { IsExact agenda.new executive.now.world.processes }
    ensures free { busy_in agenda.new ≡ replicate (length agenda.old) false }
{
    executive.facts();
    for component in 0..agenda.len() {
        agenda.put(component, executive.contents(component).next());
    }
}

/// A component is free, under its next stamp. Of one that is not there nothing changes.
pub(crate) fn free<M: Atomic>(agenda: &mut Agenda, executive: &Executive<M>, component: usize)
    requires { IsExactBut component agenda.old executive.now.world.processes }
    ensures exact { IsExact agenda.new executive.now.world.processes }
    ensures free { busy_in agenda.new ≡ slice_set (busy_in agenda.old) component false }
{
    executive.facts();
    if component < agenda.len() {
        agenda.put(component, executive.contents(component).next());
    }
}

/// A component that is free stands under its next stamp again.
pub(crate) fn refresh<M: Atomic>(agenda: &mut Agenda, executive: &Executive<M>, component: usize)
    requires { IsExactBut component agenda.old executive.now.world.processes }
    ensures exact { IsExact agenda.new executive.now.world.processes }
    ensures busy { busy_in agenda.new ≡ busy_in agenda.old }
{
    if component >= agenda.len() {
        return;
    }
    if agenda.is_out(component) {
        return;
    }
    free(agenda, executive, component);
}

/// Each component that is free stands under its next stamp again.
pub(crate) fn refresh_all<M: Atomic>(agenda: &mut Agenda, executive: &Executive<M>)
    requires { length agenda.old ≡ length executive.now.network.models }
    ensures exact { IsExact agenda.new executive.now.world.processes }
    ensures busy { busy_in agenda.new ≡ busy_in agenda.old }
{
    executive.facts();
    for component in 0..agenda.len() {
        if agenda.is_out(component) {
            continue;
        }
        agenda.put(component, executive.contents(component).next());
    }
}
