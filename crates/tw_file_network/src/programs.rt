//! Programs of components that are still to be made.

ghost use Rattle.std.specs.Prelude.{◌≡◌, Ok, IfOk};
ghost use Rattle.serde_json.specs.View.{view};
ghost use Rattle.tw_machine_file.specs.Answers.{FailsBy};
ghost use Rattle.tw_machine_declaration.specs.Seen as plain;
ghost use Rattle.tw_machine_file.specs.Machines.{program_given, program_in};
ghost use Rattle.tw_machine_file.specs.Seen as file;

use serde_json::Value;
use std::alloc::{AllocError, Global};
use std::marker::Model;
use tw_machine::machine::Shared;
use tw_machine_compiler::{BadMachine, Declaration, Given, compile};
use tw_machine_file::{FileMachine, MachineFault, given_of};

/// What a machine declares, and what a component gives for its parameters, which together are within the limits.
///
/// Contracts see the program that they mean. It takes no more memory than what is given, until it is made.
#[derive(Drop)]
pub(crate) struct ProgramDraft<'m> {
    declaration: &'m Declaration,
    given: Given,
}

impl<'m> Model for ProgramDraft<'m> {
    ghost use Rattle.std.specs.Coded.{codes};
    ghost use Rattle.std.specs.Prelude.{◌≡◌, None};
    ghost use Rattle.tw_machine_declaration.specs.Seen as plain;
    ghost use Rattle.tw_machine_compiler.specs.Limits.{fault_of};
    ghost use Rattle.tw_machine_compiler.specs.Program.{program_of};
    ghost use Rattle.tw_machine.specs.Program.{ProgramText};
    ghost use Rattle.tw_machine.specs.contracts.language.Expr as e;
    ghost use Rattle.tw_machine.specs.contracts.language.Statement as s;

    ghost Value = { ProgramText };

    ghost coded = { Prim.hlevel (codes, e.the_row.coded, s.the_row.coded) };

    ghost view = { λ d. program_of (plain.given d.given) (plain.declaration d.declaration.now) };

    ghost invariant = { λ d. fault_of (plain.given d.given) (plain.declaration d.declaration.now)
        ≡ None };
}

impl<'m> ProgramDraft<'m> {
    /// The program of a component of a machine.
    pub fn new(
        alloc: Global,
        machine: &'m FileMachine,
        component: &Value,
    ) -> Result<ProgramDraft<'m>, MachineFault>
        ensures ok { IfOk result
            (λ d. program_in (file.machine machine.now) (view component.now) ≡ Ok d) }
        ensures err { FailsBy result (program_in (file.machine machine.now) (view component.now)) }
    {
        let given = given_of(alloc, machine, component)?;
        program_given(alloc, &machine.declaration, given)
    }

    /// The program, made. The only error is want of memory.
    pub fn made(&self, alloc: Global) -> Result<Shared, AllocError>
        ensures { IfOk result (λ shared. shared ≡ self.now) }
    {
        match compile(alloc, &self.given, self.declaration) {
            Ok(program) => Shared::new(alloc, program),
            Err(BadMachine::OutOfMemory) => Err(AllocError),
            Err(_) => unreachable!(),
        }
    }
}

/// What is declared with what is given, or the first limit that is passed. The limits are those of the program, so it
/// is made for a moment.
fn program_given<'m>(
    alloc: Global,
    declaration: &'m Declaration,
    given: Given,
) -> Result<ProgramDraft<'m>, MachineFault>
    ensures ok { IfOk result
        (λ d. program_given (plain.declaration declaration.now) (plain.given given) ≡ Ok d) }
    ensures err { FailsBy result (program_given (plain.declaration declaration.now)
        (plain.given given)) }
{
    match compile(alloc, &given, declaration) {
        Ok(program) => {
            drop(program);
            Ok(ProgramDraft { declaration, given })
        }
        Err(bad) => Err(MachineFault::from(bad)),
    }
}
