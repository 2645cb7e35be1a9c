//! A local's body put in where another equation reads it.

ghost use Rattle.std.specs.Prelude.{◌≡◌, ◌==◌, ◌<◌, ◌≤◌, ℕ, IsTrue, Some, None, length, IfOk, IfErr};
ghost use Rattle.az_lin.specs.Columns.{reading};
ghost use Rattle.az_lin.specs.declared.fault.LinFault.TheVariants as lin;
ghost use Rattle.az_ast.specs.Certified.{IsCertified};
ghost use Rattle.az_ast.specs.Shapes.{IsProgram};
ghost use Rattle.az_ast.specs.Term.{term};
ghost use Rattle.expr_maps.specs.Answers.{EachAccess};
ghost use Rattle.expr_maps.specs.Columns.{CanPut};
ghost use Rattle.rewriting.specs.Answers.{GivesIf, Unless};
ghost use Rattle.rewriting.specs.Named.{number_of, ForNamed};
ghost use Rattle.rewriting.specs.Promise.{KeepsMeaning, stays};
ghost use Rattle.rewriting.specs.declared.fault.ChangeFault.TheVariants as change;
ghost use Rattle.inline_eqs.specs.Inlining.{put_in, body_with, CanPutIn, FitsIn, PutFits, inlined, InliningFits, inlining_refusal};

use az_ast::{Checked, Equation, Expr, Program, Reason, Variable};
use az_lin::{LinFault, List, Map, Name, TryCopy};
use expr_maps::{Replacement, put, replace_accesses};
use rewriting::{
    ChangeFault, EquationChange, changed_equations, changed_program, is_local, is_read_by, name_of,
    number_of, push_copies, rules, unknown,
};
use row_columns::reading;
use std::alloc::Global;

/// The body that stands in place of each access to the target.
#[derive(Drop)]
struct Insertion<'a> {
    params: usize,
    target: u32,
    body: &'a Expr,
}

impl Replacement for Insertion<'_> {
    ghost gives = { λ change x f. put_in change.params change.target (term change.body.now) x f };

    ghost wants = { λ change x f. CanPutIn change.params change.target (term change.body.now) x f };

    ghost fits = { λ change x f. FitsIn change.params change.target (term change.body.now) x f };

    fn at(&self, alloc: Global, variable: u32, map: &Map) -> Result<Expr, LinFault> {
        if variable != self.target {
            let map = map.copy(alloc)?;
            return Ok(Expr::Access(variable, map));
        }
        let read = reading(alloc, self.params, map)?;
        put(alloc, &read, self.body)
    }
}

/// The equations, into one of which the body goes.
#[derive(Drop)]
struct Inlining<'a> {
    into: u32,
    insertion: Insertion<'a>,
}

impl EquationChange for Inlining<'_> {
    ghost gives = { λ change d. Some (d.0, body_with change.insertion.params change.into change.insertion.target (term change.insertion.body.now) d.0 d.1) };

    ghost wants = { λ change d. IsTrue (d.0 == change.into) → EachAccess (CanPutIn change.insertion.params change.insertion.target (term change.insertion.body.now)) d.1 };

    ghost fits = { λ change d. PutFits change.insertion.params change.into change.insertion.target (term change.insertion.body.now) d };

    fn at(&self, alloc: Global, equation: &Equation) -> Result<Option<Equation>, LinFault> {
        if equation.variable != self.into {
            let same = equation.copy(alloc)?;
            return Ok(Some(same));
        }
        let body = replace_accesses(alloc, &self.insertion, &equation.body)?;
        Ok(Some(Equation {
            variable: equation.variable,
            body,
        }))
    }
}

fn copied(alloc: Global, variables: &[Variable]) -> Result<List<Variable>, LinFault>
    ensures ok { IfOk result (λ copied. copied ≡ variables.now) }
    ensures cause { IfErr result (λ fault. fault ≡ lin.Memory) }
{
    let mut copied = Vec::with_capacity(alloc, variables.len())?;
    push_copies(alloc, &mut copied, variables)?;
    Ok(List::from_vec(copied))
}

/// The first reason not to put it in.
fn refusal(
    alloc: Global,
    program: &Program,
    into: u32,
    target: u32,
) -> Result<Option<Reason>, ChangeFault>
    requires from { into < length program.now.variables }
    requires to { target < length program.now.variables }
    ensures ok { IfOk result (λ refusal. refusal ≡ inlining_refusal program.now into target) }
    ensures cause { IfErr result (λ fault. fault ≡ change.Memory) }
{
    if into == target {
        return Ok(Some(Reason::SelfInline));
    }
    if !is_local(program, target) {
        let name = name_of(alloc, program, target)?;
        return Ok(Some(Reason::NotLocal(name)));
    }
    if !is_read_by(program, target, into) {
        return Ok(Some(Reason::NotUsed));
    }
    Ok(None)
}

/// The program with the target's body put in.
fn inlined(alloc: Global, program: &Program, into: u32, target: u32) -> Result<Checked, ChangeFault>
    requires program { IsProgram program.now }
    requires declared { target < length program.now.variables }
    requires certified { IsCertified program.now }
    requires free { inlining_refusal program.now into target ≡ None }
    ensures meaning { IfOk result (λ changed. KeepsMeaning program.now changed stays) }
    ensures answer { GivesIf (InliningFits program.now into target) (inlined program.now into target) result }
{
    let Some(source) = program.equation(target) else {
        unreachable!();
    };
    let insertion = Insertion {
        params: program.params().len(),
        target,
        body: &source.body,
    };
    let change = Inlining { into, insertion };
    let equations = changed_equations(alloc, &change, program.equations())?;
    let variables = copied(alloc, program.variables())?;
    changed_program(alloc, program, variables, equations)
}

fn put_into(
    alloc: Global,
    program: &Program,
    into: u32,
    target: u32,
) -> Result<Checked, ChangeFault>
    requires program { IsProgram program.now }
    requires certified { IsCertified program.now }
    requires from { into < length program.now.variables }
    requires to { target < length program.now.variables }
    ensures answer { Unless (inlining_refusal program.now into target) (GivesIf (InliningFits program.now into target) (inlined program.now into target)) result }
    ensures meaning { IfOk result (λ changed. KeepsMeaning program.now changed stays) }
{
    let found = refusal(alloc, program, into, target)?;
    match found {
        Some(reason) => Err(ChangeFault::Reason(reason)),
        None => inlined(alloc, program, into, target),
    }
}

/// The same for the target with the name.
fn put_named(
    alloc: Global,
    program: &Program,
    into: u32,
    target: &Name,
) -> Result<Checked, ChangeFault>
    requires program { IsProgram program.now }
    requires certified { IsCertified program.now }
    requires from { into < length program.now.variables }
    ensures answer { ForNamed program.now target.now (λ x. Unless (inlining_refusal program.now into x) (GivesIf (InliningFits program.now into x) (inlined program.now into x))) result }
    ensures meaning { IfOk result (λ changed. KeepsMeaning program.now changed stays) }
{
    match number_of(program, target) {
        Some(target) => put_into(alloc, program, into, target),
        None => Err(unknown(alloc, target)),
    }
}

/// The program in which each access to the target in the other's equation is the target's body there.
pub fn inline(
    alloc: Global,
    checked: &Checked,
    into: &Name,
    target: &Name,
) -> Result<Checked, ChangeFault>
    ensures answer { ForNamed checked.now into.now (λ y. ForNamed checked.now target.now (λ x. Unless (inlining_refusal checked.now y x) (GivesIf (InliningFits checked.now y x) (inlined checked.now y x)))) result }
    ensures meaning { IfOk result (λ changed. KeepsMeaning checked.now changed stays) }
{
    let program = checked.program();
    rules(program);
    match number_of(program, into) {
        Some(into) => put_named(alloc, program, into, target),
        None => Err(unknown(alloc, into)),
    }
}
