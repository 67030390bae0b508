//! The components of a file with their models.

ghost use Rattle.std.specs.Prelude.{◌≡◌, Ok, IfOk, string_bytes};
ghost use Rattle.tw_file_network.specs.Answers.{FailsBy};
ghost use Rattle.tw_network.specs.Contents.{named};
ghost use Rattle.tw_file_network.specs.Components.{component_made, components_made};
ghost use Rattle.tw_file_network.specs.Draft.{component_view, components_view};

use crate::draft::ComponentDraft;
use crate::refused::FileRefused;
use std::alloc::Global;
use tw_any_model::AnyModel;

/// The components, where all their models' parameters are in range.
pub(crate) fn components_made(
    alloc: Global,
    drafts: &[ComponentDraft],
) -> Result<Vec<(String, AnyModel)>, FileRefused>
    ensures ok { IfOk result
        (λ v. components_made (components_view drafts.now) ≡ Ok (named v.items)) }
    ensures err { FailsBy result (components_made (components_view drafts.now)) }
{
    let mut components = Vec::with_capacity(alloc, drafts.len())?;
    for draft in drafts {
        components.push(component_made(alloc, draft)?)?;
    }
    Ok(components)
}

fn component_made(alloc: Global, draft: &ComponentDraft) -> Result<(String, AnyModel), FileRefused>
    ensures ok { IfOk result
        (λ c. component_made (component_view draft.now) ≡ Ok (string_bytes c.0, c.1)) }
    ensures err { FailsBy result (component_made (component_view draft.now)) }
{
    let model = draft.model.model(alloc)?;
    let name = String::from_str(alloc, draft.name)?;
    Ok((name, model))
}
