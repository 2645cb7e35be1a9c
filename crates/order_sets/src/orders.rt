//! The formulas of the dependences of a program.

ghost use Rattle.std.specs.Prelude.{◌≡◌, ◌≤◌, ◌∷◌, [], All, Contains, map, IfOk};
ghost use Rattle.az_ast.specs.Shapes.{IsProgram};
ghost use Rattle.expr_places.specs.Lent.{read_of};
ghost use Rattle.expr_places.specs.Reads.{reads_of};
ghost use Rattle.formula_refute.specs.Claims.{claim};
ghost use Rattle.order_sets.specs.Made.{IsMade, MadeIf};
ghost use Rattle.order_sets.specs.NotBefore.{not_before};
ghost use Rattle.order_sets.specs.Orders.{dependences, order_claim, orders_from};
ghost use Rattle.order_sets.specs.Reading.{IsReadOf, HasReads};
ghost use Rattle.order_sets.specs.Rows.{stamp_of};
ghost use Rattle.order_sets.specs.Stated.{Appends, States, FitsOrder, FitsOrders, IsRefutable, stated_claim};
ghost use Rattle.domain_check.specs.Context.{in_force};
ghost use Rattle.target_map.specs.Kinds.{tile_sizes};
ghost use Rattle.target_map.specs.Settings.{IsMapping, IsComplete, is_written};

use crate::before::not_before;
use crate::context::push_context;
use crate::sizes::tile_sizes;
use crate::{Members, Stated, TimeRows, Visit};
use az_ast::{Checked, Equation, Program};
use az_lin::List;
use expr_places::{Read, Scope, places, reads};
use formula_refute::{Formula, RefuteFault};
use std::alloc::{AllocError, Global};
use target_map::{Mapping, Which};

/// What is in force is, and the point isn't before the reader.
fn formula_of(
    alloc: Global,
    sizes: &[u32],
    scope: &Scope,
    point: &TimeRows,
    reader: &TimeRows,
) -> Result<Option<Formula>, AllocError>
    requires inside { All (λ domain. domain.width ≤ scope.now.width) scope.now.domains }
    requires narrow { scope.now.width ≤ 4096 }
    ensures { IfOk result (IsMade (in_force scope.now (not_before sizes.now (stamp_of point.now) (stamp_of reader.now) ∷ []))) }
{
    let mut members = Members::new(alloc);
    push_context(&mut members, alloc, scope, scope.width)?;
    members.push(not_before(alloc, sizes, point, reader)?)?;
    Ok(members.all())
}

/// The formula of a read of the equation of `x`; none where a row is out of range.
fn order_formula(
    alloc: Global,
    program: &Program,
    mapping: &Mapping,
    sizes: &[u32],
    x: u32,
    read: &Read,
) -> Result<Option<Formula>, AllocError>
    requires read { IsReadOf program.now x (read_of read.now) }
    requires written { is_written program.now x }
    requires complete { IsComplete program.now mapping.now }
    requires sizes { sizes.now ≡ tile_sizes mapping.now.kinds }
    ensures { IfOk result (MadeIf (FitsOrder program.now mapping.now x (read_of read.now)) (λ formula. claim formula ≡ order_claim program.now mapping.now x (read_of read.now))) }
{
    let point = Visit::of_read(alloc, program, read)?;
    let Some(point) = TimeRows::of_visit(alloc, mapping, &point)? else {
        return Ok(None);
    };
    let reader = Visit::of_first(alloc, program, x, read.scope.width)?;
    let Some(reader) = TimeRows::of_visit(alloc, mapping, &reader)? else {
        return Ok(None);
    };
    formula_of(alloc, sizes, &read.scope, &point, &reader)
}

/// Appends the formulas of the equation's reads.
fn push_orders(
    alloc: Global,
    list: &mut Vec<Stated>,
    program: &Program,
    mapping: &Mapping,
    sizes: &[u32],
    equation: &Equation,
) -> Result<(), RefuteFault>
    requires inside { Contains program.now.equations equation.now }
    requires reads { HasReads program.now equation.now.variable (reads_of program.now equation.now) }
    requires complete { IsComplete program.now mapping.now }
    requires sizes { sizes.now ≡ tile_sizes mapping.now.kinds }
    ensures { Appends (All (FitsOrder program.now mapping.now equation.now.variable) (reads_of program.now equation.now))
        (orders_from program.now mapping.now equation.now.variable 0 (reads_of program.now equation.now)) list.old.items list.new.items result }
{
    let x = equation.variable;
    let places = places(alloc, program, equation)?;
    let reads = reads(alloc, program.variables(), places.as_slice())?;
    'reads: for number in 0..reads.len() {
        let read = &reads[number];
        let Some(formula) = order_formula(alloc, program, mapping, sizes, x, read)? else {
            return Err(RefuteFault::Entry);
        };
        list.push(Stated {
            which: Which::Order {
                reader: x,
                read: number as u32,
            },
            width: read.scope.width,
            formula,
        })?;
    }
    Ok(())
}

/// For each equation in order and each of its reads, the formula that is true where the read comes
/// before what it reads. `Entry` where a row that is composed or made of composed rows is out of
/// range.
pub fn dependence_formulas(
    alloc: Global,
    checked: &Checked,
    mapping: &Mapping,
) -> Result<List<Stated>, RefuteFault>
    requires { IsComplete checked.now mapping.now }
    ensures answer { States (FitsOrders checked.now mapping.now) (dependences checked.now mapping.now) result }
    ensures refutable { IfOk result (λ list. All IsRefutable (map stated_claim list)) }
{
    let program = checked.program();
    let sizes = tile_sizes(alloc, mapping.kinds())?;
    let mut list = Vec::new(alloc);
    'equations: for equation in program.equations() {
        match push_orders(
            alloc,
            &mut list,
            program,
            mapping,
            sizes.as_slice(),
            equation,
        ) {
            Ok(()) => {}
            Err(fault) => return Err(fault),
        }
    }
    Ok(List::from_vec(list))
}
