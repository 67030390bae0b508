//! The machine of a name, among those that a file declares.

ghost use Rattle.std.specs.Prelude.{◌≡◌, map, option_map};
ghost use Rattle.tw_machine_file.specs.Seen.{machine};
ghost use Rattle.tw_file_members.specs.Named.{machine_index, machine_named};

use tw_machine_file::FileMachine;

/// The place of the first machine of a name, from 0.
pub fn machine_index(machines: &[FileMachine], name: &str) -> Option<usize>
    ensures { result ≡ machine_index 0 (map machine machines.now) name.now }
{
    for (index, machine) in machines.iter().enumerate() {
        if machine.name.as_str() == name {
            return Some(index);
        }
    }
    None
}

/// The first machine of a name.
pub fn machine_named<'a>(machines: &'a [FileMachine], name: &str) -> Option<&'a FileMachine>
    ensures { option_map (λ m. machine m.now) result
        ≡ machine_named (map machine machines.now) name.now }
{
    let index = machine_index(machines, name)?;
    machines.get(index)
}
