//! What a command line changes in a network's file.

ghost use Rattle.std.specs.Prelude.{◌≡◌, ◌≤◌, IfErr, IsTrue, None, OnOk, Some};
ghost use Rattle.serde_json.specs.Data.{Data, depth};
ghost use Rattle.serde_json.specs.View.{view};
ghost use Rattle.tw_file_settings.specs.Set.{all_assigned, set};
ghost use Rattle.tw_file_settings.specs.declared.refused.SettingRefused.TheVariants as refused;

use crate::assigning::assign;
use crate::assignment::Assignment;
use crate::refused::SettingRefused;
use crate::reseeding::reseed;
use serde_json::Value;
use std::alloc::Global;

/// What a command line changes in a network's file.
#[derive(Debug, Drop)]
pub struct Settings<'a> {
    /// Parameters and their numbers, no parameter twice.
    pub assignments: Vec<Assignment<'a>>,
    /// The number of the replication: 0 leaves the seeds.
    pub replication: u64,
}

impl Settings<'_> {
    /// Whether nothing is changed.
    pub(crate) fn is_empty(&self) -> bool
        ensures { IsTrue result → (d : Data) → set self.now d ≡ Some d }
    {
        self.assignments.is_empty() && self.replication == 0
    }

    /// Puts the settings into the JSON value of a network's file: the number of each assignment in the place of its parameter's, and then
    /// the seeds of the replication. After a refusal the value is of no use.
    pub(crate) fn put_into(&self, alloc: Global, file: &mut Value) -> Result<(), SettingRefused>
        ensures ok { OnOk result (set self.now (view file.old) ≡ Some (view file.new)) }
        ensures err { IfErr result (λ e. e ≡ refused.NoParameter
            → set self.now (view file.old) ≡ None) }
        ensures nests { OnOk result (depth (view file.new) ≤ depth (view file.old)) }
    {
        self.assign_all(alloc, file)?;
        reseed(alloc, file, self.replication)?;
        Ok(())
    }

    /// Puts the number of each assignment in the place of its parameter's.
    fn assign_all(&self, alloc: Global, file: &mut Value) -> Result<(), SettingRefused>
        ensures ok { OnOk result
            (all_assigned self.now.assignments.items (view file.old) ≡ Some (view file.new)) }
        ensures err { IfErr result (λ e. e ≡ refused.NoParameter
            → all_assigned self.now.assignments.items (view file.old) ≡ None) }
    {
        for assignment in self.assignments.as_slice() {
            assign(alloc, file, assignment.target, assignment.number)?;
        }
        Ok(())
    }
}
