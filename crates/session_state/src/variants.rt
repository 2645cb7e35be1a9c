//! The words for the variants of enums in refusals.

ghost use Rattle.std.specs.Prelude.{◌≡◌};
ghost use Rattle.session_state.specs.Variants.{text_word, shape_word, check_word, limit_word};

use crate::TextKind;
use az_ast::ShapeKind;
use az_lin::Limit;
use domain_check::CheckKind;

pub(crate) fn text_word(kind: TextKind) -> &'static str
    ensures { result.now ≡ text_word kind }
{
    match kind {
        TextKind::Syntax => "Syntax",
        TextKind::BadByte => "BadByte",
        TextKind::WideNumber => "WideNumber",
    }
}

pub(crate) fn shape_word(kind: ShapeKind) -> &'static str
    ensures { result.now ≡ shape_word kind }
{
    match kind {
        ShapeKind::Reserved => "Reserved",
        ShapeKind::TwiceName => "TwiceName",
        ShapeKind::UnknownName => "UnknownName",
        ShapeKind::Literal => "Literal",
        ShapeKind::Entry => "Entry",
        ShapeKind::Arity => "Arity",
        ShapeKind::InputEquation => "InputEquation",
        ShapeKind::TwoEquations => "TwoEquations",
        ShapeKind::BadReduce => "BadReduce",
        ShapeKind::NoEquation => "NoEquation",
    }
}

pub(crate) fn check_word(kind: CheckKind) -> &'static str
    ensures { result.now ≡ check_word kind }
{
    match kind {
        CheckKind::Unbounded => "Unbounded",
        CheckKind::Overlap => "Overlap",
        CheckKind::Gap => "Gap",
        CheckKind::Outside => "Outside",
        CheckKind::Endless => "Endless",
    }
}

pub(crate) fn limit_word(limit: Limit) -> &'static str
    ensures { result.now ≡ limit_word limit }
{
    match limit {
        Limit::File => "File",
        Limit::Commands => "Commands",
        Limit::Size => "Size",
        Limit::Names => "Names",
        Limit::Columns => "Columns",
        Limit::Pieces => "Pieces",
        Limit::Rows => "Rows",
        Limit::Systems => "Systems",
        Limit::Steps => "Steps",
        Limit::BoxPoints => "Box",
        Limit::Points => "Points",
        Limit::Coordinate => "Coordinate",
        Limit::Instances => "Instances",
        Limit::Loads => "Loads",
        Limit::Cells => "Cells",
        Limit::Turns => "Turns",
        Limit::Disjuncts => "Disjuncts",
    }
}
