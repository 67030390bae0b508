//! What a chain has to do with the process of its component.

ghost use Rattle.tw_laws.specs.Chains.{ChainLaw, InstallLaw};

/// Where a component stands at a chain's start and has its messages before the bound, the chain's steps are its next
/// steps. Whatever messages it has, a step of the chain that agrees with the component's next step in stamp and bag
/// is that step.
pub fn chain_law<S>()
    ensures { ChainLaw S }
{}

/// Installing a chain is making its steps by Step actions of its component, one after another, each answered as the
/// chain has it; and a process that has not changed since the chain's start finds none of its steps stale.
pub fn install_law<S>()
    ensures { InstallLaw S }
{}
