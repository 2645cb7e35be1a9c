//! A local whose points go where an invertible map leads them.

ghost use Rattle.std.specs.Prelude.{◌≡◌, ◌==◌, ◌<◌, ◌≤◌, ◌+◌, ℕ, IsTrue, Some, None, length, slice_get, MatchOption, IfOk, IfErr};
ghost use Rattle.az_lin.specs.Affine.{AffineMap};
ghost use Rattle.az_lin.specs.Answers.{IsExactly};
ghost use Rattle.az_lin.specs.Columns.{reading};
ghost use Rattle.az_ast.specs.Shapes.{IsProgram, indices};
ghost use Rattle.az_ast.specs.Term.{term};
ghost use Rattle.expr_maps.specs.Answers.{IsTerm, EachAccess};
ghost use Rattle.expr_maps.specs.Columns.{CanPut, HasEntriesIn};
ghost use Rattle.expr_maps.specs.Put.{put};
ghost use Rattle.rewriting.specs.Answers.{GivesIf, Unless};
ghost use Rattle.rewriting.specs.Named.{number_of, ForNamed};
ghost use Rattle.rewriting.specs.Promise.{KeepsMeaning};
ghost use Rattle.rewriting.specs.declared.fault.ChangeFault.TheVariants as change;
ghost use Rattle.change_basis.specs.Basis.{moved_map, moved_access, led_back, moved_body, moved_variable, with_changed, rebased, moves_by, MapFits, BodyFits, DomainFits, BasisFits, size_refusal, basis_refusal, Rebases};
ghost use Rattle.change_basis.specs.Inner.{CanMove, CanLead, Undoes};

use az_ast::{Checked, Equation, Expr, Program, Reason, Variable};
use az_lin::{LinFault, List, Map, Name, TryCopy};
use az_poly::{PolyFault, image_by_inverse};
use expr_maps::{Replacement, put, replace_accesses};
use rewriting::{
    ChangeFault, EquationChange, changed_equations, changed_program, is_local, name_of, number_of,
    push_copies, rules, unknown,
};
use row_columns::reading;
use std::alloc::Global;

/// Accesses to the target, which read where its points have gone.
#[derive(Drop)]
struct Moving<'a> {
    params: usize,
    target: u32,
    basis: &'a Map,
}

impl Replacement for Moving<'_> {
    ghost gives = { λ change x f. moved_access change.params change.target change.basis.now x f };

    ghost wants = { λ change x f. CanMove change.params change.target change.basis.now x f };

    ghost fits = { λ change x f. MapFits change.params change.target change.basis.now x f };

    fn at(&self, alloc: Global, variable: u32, map: &Map) -> Result<Expr, LinFault> {
        if variable != self.target {
            let map = map.copy(alloc)?;
            return Ok(Expr::Access(variable, map));
        }
        let read = reading(alloc, self.params, map)?;
        let moved = self.basis.compose(alloc, &read)?;
        Ok(Expr::Access(variable, moved))
    }
}

/// The equations, of which the target's is led back by the inverse.
#[derive(Drop)]
struct Rebasing<'a> {
    moving: Moving<'a>,
    inverse: &'a Map,
}

impl Rebasing<'_> {
    /// The body over the new coordinates, if it is the target's.
    fn led_back(&self, alloc: Global, equation: &Equation) -> Result<Expr, LinFault>
        requires { CanLead self.now.moving.params self.now.moving.target self.now.inverse.now equation.now.variable (term equation.now.body) }
        ensures { IsTerm (led_back self.now.moving.params self.now.moving.target self.now.inverse.now equation.now.variable (term equation.now.body))
            (IsTrue (equation.now.variable == self.now.moving.target) → HasEntriesIn (put (reading self.now.moving.params self.now.inverse.now) (term equation.now.body))) result }
    {
        if equation.variable != self.moving.target {
            return TryCopy::copy(&equation.body, alloc);
        }
        let back = reading(alloc, self.moving.params, self.inverse)?;
        put(alloc, &back, &equation.body)
    }
}

impl EquationChange for Rebasing<'_> {
    ghost gives = { λ change d. Some (d.0, moved_body change.moving.params change.moving.target change.moving.basis.now change.inverse.now d.0 d.1) };

    ghost wants = { λ change d. CanLead change.moving.params change.moving.target change.inverse.now d.0 d.1
        × EachAccess (CanMove change.moving.params change.moving.target change.moving.basis.now) (led_back change.moving.params change.moving.target change.inverse.now d.0 d.1) };

    ghost fits = { λ change d. BodyFits change.moving.params change.moving.target change.moving.basis.now change.inverse.now d };

    fn at(&self, alloc: Global, equation: &Equation) -> Result<Option<Equation>, LinFault> {
        let led = self.led_back(alloc, equation)?;
        let body = replace_accesses(alloc, &self.moving, &led)?;
        Ok(Some(Equation {
            variable: equation.variable,
            body,
        }))
    }
}

/// The variable over the new coordinates.
fn moved_variable(
    alloc: Global,
    params: usize,
    inverse: &Map,
    variable: &Variable,
) -> Result<Variable, LinFault>
    requires inside { params ≤ inverse.now.width }
    requires rows { params + length inverse.now.rows ≡ variable.now.domain.width }
    requires narrow { variable.now.domain.width ≤ 64 }
    ensures { IsExactly (λ moved. DomainFits params inverse.now variable.now) (moved_variable params inverse.now variable.now) result }
{
    let name = variable.name.copy(alloc)?;
    let back = reading(alloc, params, inverse)?;
    let domain = match image_by_inverse(alloc, &variable.domain, &back) {
        Ok(domain) => domain,
        Err(PolyFault::Entry) => return Err(LinFault::Entry),
        Err(PolyFault::Memory) => return Err(LinFault::Memory),
        Err(PolyFault::Limit(_)) => unreachable!(),
    };
    Ok(Variable {
        name,
        role: variable.role,
        domain,
    })
}

/// The variables, of which the target is moved.
fn moved_variables(
    alloc: Global,
    params: usize,
    inverse: &Map,
    variables: &[Variable],
    target: usize,
) -> Result<List<Variable>, LinFault>
    requires declared { target < length variables.now }
    requires inside { params ≤ inverse.now.width }
    requires rows { MatchOption (slice_get variables.now target) ⊥ (λ variable. params + length inverse.now.rows ≡ variable.domain.width) }
    requires narrow { MatchOption (slice_get variables.now target) ⊥ (λ variable. variable.domain.width ≤ 64) }
    ensures { IsExactly (λ moved. MatchOption (slice_get variables.now target) (Unit {0}) (DomainFits params inverse.now)) (with_changed (moved_variable params inverse.now) target variables.now) result }
{
    let moved = moved_variable(alloc, params, inverse, &variables[target])?;
    let mut all = Vec::with_capacity(alloc, variables.len())?;
    push_copies(alloc, &mut all, &variables[..target])?;
    all.push(moved)?;
    push_copies(alloc, &mut all, &variables[target + 1..])?;
    Ok(List::from_vec(all))
}

/// The first reason not to change the variable's basis by a map of so many columns and rows.
pub fn size_refusal(
    alloc: Global,
    program: &Program,
    target: u32,
    width: usize,
    rows: usize,
) -> Result<Option<Reason>, ChangeFault>
    requires { target < length program.now.variables }
    ensures ok { IfOk result (λ refusal. refusal ≡ size_refusal program.now target width rows) }
    ensures cause { IfErr result (λ fault. fault ≡ change.Memory) }
{
    if !is_local(program, target) {
        let name = name_of(alloc, program, target)?;
        return Ok(Some(Reason::Interface(name)));
    }
    let variable = &program.variables()[target as usize];
    if width != variable.domain.width() || rows != variable.indices(program.params().len()) {
        return Ok(Some(Reason::Width));
    }
    Ok(None)
}

/// The program in which the target's points have gone where the map leads them.
fn rebased(
    alloc: Global,
    program: &Program,
    target: u32,
    basis: &Map,
    inverse: &Map,
) -> Result<Checked, ChangeFault>
    requires program { IsProgram program.now }
    requires free { basis_refusal program.now target basis.now ≡ None }
    requires undone { Undoes (length program.now.params) basis.now inverse.now }
    ensures answer { GivesIf (BasisFits program.now target basis.now inverse.now) (rebased program.now target basis.now inverse.now) result }
    ensures meaning { IfOk result (λ changed. KeepsMeaning program.now changed (moves_by target basis.now)) }
{
    let params = program.params().len();
    let variables = moved_variables(alloc, params, inverse, program.variables(), target as usize)?;
    let moving = Moving {
        params,
        target,
        basis,
    };
    let change = Rebasing { moving, inverse };
    let equations = changed_equations(alloc, &change, program.equations())?;
    changed_program(alloc, program, variables, equations)
}

/// What the inversion answers, and then the changed program.
fn inverted(
    alloc: Global,
    program: &Program,
    target: u32,
    basis: &Map,
) -> Result<Checked, ChangeFault>
    requires program { IsProgram program.now }
    requires free { basis_refusal program.now target basis.now ≡ None }
    ensures answer { Rebases program.now target basis.now result }
    ensures meaning { IfOk result (λ changed. KeepsMeaning program.now changed (moves_by target basis.now)) }
{
    let inverse = basis.invert(alloc, program.params().len())?;
    let _ = inverse.width();
    rebased(alloc, program, target, basis, &inverse)
}

fn moved(alloc: Global, program: &Program, target: u32, basis: &Map) -> Result<Checked, ChangeFault>
    requires program { IsProgram program.now }
    requires declared { target < length program.now.variables }
    ensures answer { Unless (basis_refusal program.now target basis.now) (Rebases program.now target basis.now) result }
    ensures meaning { IfOk result (λ changed. KeepsMeaning program.now changed (moves_by target basis.now)) }
{
    let found = size_refusal(alloc, program, target, basis.width(), basis.rows().len())?;
    match found {
        Some(reason) => Err(ChangeFault::Reason(reason)),
        None => inverted(alloc, program, target, basis),
    }
}

/// The program in which the local's point z stands at T(z), for the map T from the parameters and the local's
/// indices to the new indices. `Overflow` has the number 0.
pub fn change_basis(
    alloc: Global,
    checked: &Checked,
    name: &Name,
    map: &Map,
) -> Result<Checked, ChangeFault>
    ensures answer { ForNamed checked.now name.now (λ x. Unless (basis_refusal checked.now x map.now) (Rebases checked.now x map.now)) result }
    ensures meaning { (x : ℕ) → number_of checked.now name.now ≡ Some x → IfOk result (λ changed. KeepsMeaning checked.now changed (moves_by x map.now)) }
{
    let program = checked.program();
    rules(program);
    match number_of(program, name) {
        Some(target) => moved(alloc, program, target, map),
        None => Err(unknown(alloc, name)),
    }
}
