//! Laws of the definitions.

ghost use Rattle.normalize_eqs.specs.Laws.{NormalFormKeepsMeaning, NormalFormKeepsRules};

/// In normal form each variable that was there means what it meant.
pub fn normal_form_keeps_meaning()
    ensures { NormalFormKeepsMeaning }
{}

/// In normal form a program keeps the rules on places and shapes.
pub fn normal_form_keeps_rules()
    ensures { NormalFormKeepsRules }
{}
