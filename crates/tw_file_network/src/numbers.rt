//! Names and ports of a file as the numbers of a network.

ghost use Rattle.std.specs.Prelude.{◌≡◌, IfOk, map};
ghost use Rattle.tw_file_network.specs.Draft.{
  components_view,
  coupling_view,
  couplings_view,
  input_view,
  inputs_view,
};
ghost use Rattle.tw_file_network.specs.Numbering.{numbering};
ghost use Rattle.tw_file_network.specs.Numbers.{
  names_of,
  number_of,
  numbered_coupling,
  numbered_input,
  port_of,
};
ghost use Rattle.tw_file_network.specs.TreeShape.{end_named, link_named};

use crate::draft::{ComponentDraft, CouplingDraft, InputDraft};
use indexmap::IndexMap;
use std::alloc::{AllocError, Global};
use tw_network::{Coupling, End, Input, Link};

/// The names of the components of a file.
pub(crate) fn names_of<'a>(
    alloc: Global,
    components: &[ComponentDraft<'a>],
) -> Result<Vec<&'a str>, AllocError>
    ensures { IfOk result
        (λ v. map (λ n. n.now) v.items ≡ names_of (components_view components.now)) }
{
    let mut names = Vec::with_capacity(alloc, components.len())?;
    for component in components {
        names.push(component.name)?;
    }
    Ok(names)
}

/// The numbers of components or parts, by name.
#[derive(Drop)]
pub(crate) struct Numbers<'a> {
    by_name: IndexMap<&'a str, usize>,
    count: usize,
}

impl<'a> Numbers<'a> {
    /// The numbers of those that have these names. It goes from the last one to the first, so that of equal
    /// names the first one counts.
    pub fn new(alloc: Global, names: &[&'a str]) -> Result<Numbers<'a>, AllocError>
        ensures { IfOk result (λ n. numbering n ≡ number_of (map (λ n. n.now) names.now)) }
    {
        let count = names.len();
        let mut by_name = IndexMap::with_capacity(alloc, count)?;
        for i in (0..count).rev() {
            by_name.insert(names[i], i)?;
        }
        Ok(Numbers { by_name, count })
    }

    /// The couplings with numbers.
    pub fn couplings(
        &self,
        alloc: Global,
        drafts: &[CouplingDraft],
    ) -> Result<Vec<Coupling>, AllocError>
        ensures { IfOk result (λ v. v.items
            ≡ map (numbered_coupling (numbering self.now)) (couplings_view drafts.now)) }
    {
        let mut couplings = Vec::with_capacity(alloc, drafts.len())?;
        for draft in drafts {
            couplings.push(self.coupling(draft))?;
        }
        Ok(couplings)
    }

    /// The couplings of a model with the places of its parts.
    pub fn links(&self, alloc: Global, drafts: &[CouplingDraft]) -> Result<Vec<Link>, AllocError>
        ensures { IfOk result
            (λ v. v.items ≡ map (link_named (numbering self.now)) (couplings_view drafts.now)) }
    {
        let mut links = Vec::with_capacity(alloc, drafts.len())?;
        for draft in drafts {
            links.push(self.link(draft))?;
        }
        Ok(links)
    }

    /// The inputs with numbers.
    pub fn inputs(&self, alloc: Global, drafts: &[InputDraft]) -> Result<Vec<Input>, AllocError>
        ensures { IfOk result
            (λ v. v.items ≡ map (numbered_input (numbering self.now)) (inputs_view drafts.now)) }
    {
        let mut inputs = Vec::with_capacity(alloc, drafts.len())?;
        for draft in drafts {
            inputs.push(self.input(draft))?;
        }
        Ok(inputs)
    }

    fn coupling(&self, draft: &CouplingDraft) -> Coupling
        ensures { result ≡ numbered_coupling (numbering self.now) (coupling_view draft.now) }
    {
        (
            self.number(draft.source),
            port_of(draft.source_port),
            self.number(draft.destination),
            port_of(draft.destination_port),
        )
    }

    fn link(&self, draft: &CouplingDraft) -> Link
        ensures { result ≡ link_named (numbering self.now) (coupling_view draft.now) }
    {
        (
            self.end(draft.source),
            port_of(draft.source_port),
            self.end(draft.destination),
            port_of(draft.destination_port),
        )
    }

    /// The part that has the name; the empty name is that of the model itself.
    fn end(&self, name: &str) -> End
        ensures { result ≡ end_named (numbering self.now) name.now }
    {
        if name.is_empty() {
            End::Here
        } else {
            End::Part(self.number(name))
        }
    }

    fn input(&self, draft: &InputDraft) -> Input
        ensures { result ≡ numbered_input (numbering self.now) (input_view draft.now) }
    {
        (
            draft.tick,
            self.number(draft.to),
            port_of(draft.port),
            draft.value,
        )
    }

    /// The number of the component that has the name, or one that no component has.
    fn number(&self, name: &str) -> usize
        ensures { result ≡ numbering self.now name.now }
    {
        self.by_name.get(name).copied().unwrap_or(self.count)
    }
}

/// A port above 255 as 255: a network takes neither.
pub(crate) fn port_of(port: u64) -> u8
    ensures { result ≡ port_of port }
{
    if port < 256 { port as u8 } else { 255 }
}
