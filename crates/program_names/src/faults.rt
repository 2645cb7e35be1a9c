//! The items of a text in order, and the first that is at fault.

ghost use Rattle.std.specs.Prelude.{◌≡◌, ◌+◌, ◌≤◌, ◌++◌, [], length, map, IfOk, IfErr};
ghost use Rattle.az_lin.specs.declared.fault.LinFault.TheVariants.{Memory};
ghost use Rattle.az_ast.specs.Shapes.{first_kind, kinds_after};
ghost use Rattle.program_names.specs.Refusals.{declaration_kind, equation_kind, missing_kind};
ghost use Rattle.program_names.specs.Resolved.{declarations};

use crate::kinds::{declaration_kind, equation_kind, is_equated};
use az_ast::{ShapeFault, ShapeKind};
use az_lin::LinFault;
use program_grammar::{Declaration, Equation, ProgramText};
use std::alloc::Global;

/// The first of some declarations at fault, which stand after those of two lists.
pub(crate) fn declaration_fault(
    alloc: Global,
    text: &ProgramText,
    first: &[Declaration],
    second: &[Declaration],
    declarations: &[Declaration],
    item: u32,
) -> Result<Option<ShapeFault>, LinFault>
    requires few { item + length declarations.now ≤ 1024 }
    ensures ok { IfOk result (λ fault. fault ≡ first_kind item (kinds_after (λ earlier. declaration_kind text.now ((first.now ++ second.now) ++ earlier)) [] declarations.now)) }
    ensures cause { IfErr result (λ fault. fault ≡ Memory) }
{
    'items: for place in 0..declarations.len() {
        let third = &declarations[..place];
        if let Some(kind) = declaration_kind(
            alloc,
            text,
            first,
            second,
            third,
            &declarations[place],
        )? {
            let item = item + place as u32;
            return Ok(Some(ShapeFault::Shape { kind, item }));
        }
    }
    Ok(None)
}

/// The first of some outputs or locals that has no equation.
pub(crate) fn missing_fault(
    equations: &[Equation],
    declarations: &[Declaration],
    item: u32,
) -> Option<ShapeFault>
    requires few { item + length declarations.now ≤ 1024 }
    ensures { result ≡ first_kind item (map (missing_kind equations.now) declarations.now) }
{
    'items: for place in 0..declarations.len() {
        if !is_equated(equations, &declarations[place].name) {
            let kind = ShapeKind::NoEquation;
            let item = item + place as u32;
            return Some(ShapeFault::Shape { kind, item });
        }
    }
    None
}

/// The first equation at fault. The equations follow the declarations.
pub(crate) fn equation_fault(
    alloc: Global,
    text: &ProgramText,
    item: u32,
) -> Result<Option<ShapeFault>, LinFault>
    requires few { length (declarations text.now) ≤ 256 }
    requires item { item ≡ 1 + length (declarations text.now) }
    ensures ok { IfOk result (λ fault. fault ≡ first_kind item (kinds_after (equation_kind text.now) [] text.now.equations)) }
    ensures cause { IfErr result (λ fault. fault ≡ Memory) }
{
    let equations = text.equations.as_slice();
    'items: for place in 0..equations.len() {
        if let Some(kind) = equation_kind(alloc, text, &equations[..place], &equations[place])? {
            let item = item + place as u32;
            return Ok(Some(ShapeFault::Shape { kind, item }));
        }
    }
    Ok(None)
}
