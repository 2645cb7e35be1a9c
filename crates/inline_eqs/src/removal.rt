//! Locals that no other equation reads, taken out.

ghost use Rattle.std.specs.Prelude.{◌≡◌, ◌<◌, ℕ, Some, None, length, IfOk, IfErr};
ghost use Rattle.az_lin.specs.declared.fault.LinFault.TheVariants as lin;
ghost use Rattle.az_ast.specs.Shapes.{IsProgram};
ghost use Rattle.rewriting.specs.Answers.{GivesIf, Unless};
ghost use Rattle.rewriting.specs.Named.{number_of, ForNamed};
ghost use Rattle.rewriting.specs.Promise.{KeepsMeaning};
ghost use Rattle.rewriting.specs.declared.fault.ChangeFault.TheVariants as change;
ghost use Rattle.inline_eqs.specs.Removal.{closed_up, renumbered, definition_without, variables_without, without, moves_up, is_used_by, used_from, removal_refusal};

use az_ast::{Checked, Equation, Expr, Program, Reason, Variable};
use az_lin::{LinFault, List, Map, Name, TryCopy};
use expr_maps::{Replacement, replace_accesses};
use rewriting::{
    ChangeFault, EquationChange, changed_equations, changed_program, is_local, is_read_by, name_of,
    number_of, push_copies, rules, unknown, variable_count,
};
use std::alloc::Global;

/// The number of another variable without the one that goes.
fn closed_up(gone: u32, x: u32) -> u32
    ensures { result ≡ closed_up gone x }
{
    if gone < x { x - 1 } else { x }
}

/// Accesses under the numbers without the variable that goes.
#[derive(Drop)]
struct Renumbering {
    gone: u32,
}

impl Replacement for Renumbering {
    ghost gives = { λ change x f. renumbered change.gone x f };

    ghost wants = { λ change x f. Unit {0} };

    ghost fits = { λ change x f. Unit {0} };

    fn at(&self, alloc: Global, variable: u32, map: &Map) -> Result<Expr, LinFault> {
        let map = map.copy(alloc)?;
        Ok(Expr::Access(closed_up(self.gone, variable), map))
    }
}

/// The equations without that of the variable that goes.
#[derive(Drop)]
struct Removal {
    gone: u32,
}

impl EquationChange for Removal {
    ghost gives = { λ change d. definition_without change.gone d };

    ghost wants = { λ change d. Unit {0} };

    ghost fits = { λ change d. Unit {0} };

    fn at(&self, alloc: Global, equation: &Equation) -> Result<Option<Equation>, LinFault> {
        if equation.variable == self.gone {
            return Ok(None);
        }
        let renumbering = Renumbering { gone: self.gone };
        let body = replace_accesses(alloc, &renumbering, &equation.body)?;
        Ok(Some(Equation {
            variable: closed_up(self.gone, equation.variable),
            body,
        }))
    }
}

fn variables_without(
    alloc: Global,
    variables: &[Variable],
    gone: usize,
) -> Result<List<Variable>, LinFault>
    requires { gone < length variables.now }
    ensures ok { IfOk result (λ kept. kept ≡ variables_without gone variables.now) }
    ensures cause { IfErr result (λ fault. fault ≡ lin.Memory) }
{
    let mut kept = Vec::with_capacity(alloc, variables.len())?;
    push_copies(alloc, &mut kept, &variables[..gone])?;
    push_copies(alloc, &mut kept, &variables[gone + 1..])?;
    Ok(List::from_vec(kept))
}

/// Whether the equation of `y`, another variable, reads `x`.
fn is_used_by(program: &Program, x: u32, y: u32) -> bool
    requires { y < length program.now.variables }
    ensures { result ≡ is_used_by program.now x y }
{
    y != x && is_read_by(program, x, y)
}

/// The first variable in order of declaration that still reads it.
fn still_used(alloc: Global, program: &Program, x: u32) -> Result<Option<Reason>, ChangeFault>
    ensures ok { IfOk result (λ refusal. refusal ≡ used_from program.now x 0 (length program.now.variables)) }
    ensures cause { IfErr result (λ fault. fault ≡ change.Memory) }
{
    'users: for y in 0..variable_count(program) {
        if is_used_by(program, x, y) {
            let name = name_of(alloc, program, y)?;
            return Ok(Some(Reason::StillUsed(name)));
        }
    }
    Ok(None)
}

/// The first reason not to take it out.
fn refusal(alloc: Global, program: &Program, x: u32) -> Result<Option<Reason>, ChangeFault>
    requires { x < length program.now.variables }
    ensures ok { IfOk result (λ refusal. refusal ≡ removal_refusal program.now x) }
    ensures cause { IfErr result (λ fault. fault ≡ change.Memory) }
{
    if !is_local(program, x) {
        let name = name_of(alloc, program, x)?;
        return Ok(Some(Reason::NotLocal(name)));
    }
    still_used(alloc, program, x)
}

/// The program without a local that nothing else reads.
fn without(alloc: Global, program: &Program, gone: u32) -> Result<Checked, ChangeFault>
    requires program { IsProgram program.now }
    requires declared { gone < length program.now.variables }
    requires free { removal_refusal program.now gone ≡ None }
    ensures meaning { IfOk result (λ changed. KeepsMeaning program.now changed (moves_up gone)) }
    ensures answer { GivesIf (Unit {0}) (without program.now gone) result }
{
    let variables = variables_without(alloc, program.variables(), gone as usize)?;
    let equations = changed_equations(alloc, &Removal { gone }, program.equations())?;
    changed_program(alloc, program, variables, equations)
}

fn removed(alloc: Global, program: &Program, x: u32) -> Result<Checked, ChangeFault>
    requires program { IsProgram program.now }
    requires declared { x < length program.now.variables }
    ensures meaning { IfOk result (λ changed. KeepsMeaning program.now changed (moves_up x)) }
    ensures answer { Unless (removal_refusal program.now x) (GivesIf (Unit {0}) (without program.now x)) result }
{
    let found = refusal(alloc, program, x)?;
    match found {
        Some(reason) => Err(ChangeFault::Reason(reason)),
        None => without(alloc, program, x),
    }
}

/// The program without the local, which no other equation reads. The numbers behind it close up.
pub fn remove_unused(alloc: Global, checked: &Checked, name: &Name) -> Result<Checked, ChangeFault>
    ensures answer { ForNamed checked.now name.now (λ x. Unless (removal_refusal checked.now x) (GivesIf (Unit {0}) (without checked.now x))) result }
    ensures meaning { (x : ℕ) → number_of checked.now name.now ≡ Some x → IfOk result (λ changed. KeepsMeaning checked.now changed (moves_up x)) }
{
    let program = checked.program();
    rules(program);
    match number_of(program, name) {
        Some(x) => removed(alloc, program, x),
        None => Err(unknown(alloc, name)),
    }
}
