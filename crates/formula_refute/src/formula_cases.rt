//! The cases of a formula, each made as a system when it is asked for.

ghost use Rattle.std.specs.Prelude.{◌≡◌, ◌<◌, ◌≤◌, MatchOption, IfOk, IfErr, [], length, slice_index_or};
ghost use Rattle.formula_refute.specs.Claims.{claim, IsOver};
ghost use Rattle.formula_refute.specs.Cases.{cases, system_of, systems, most_systems};
ghost use Rattle.formula_refute.specs.Inner.Counted.{IsCounted};
ghost use Rattle.formula_refute.specs.declared.fault.RefuteFault.TheVariants.{Memory};

use crate::case::push_case;
use crate::case_list::CaseList;
use crate::count::{MOST_SYSTEMS, case_count};
use crate::lent::LentRows;
use crate::verdict::{Verdict, verdict_on};
use crate::{Formula, RefuteFault};
use az_lin::{Conj, List};
use std::alloc::Global;

/// A formula over so many columns, and how many cases it has.
#[derive(Drop)]
pub(crate) struct FormulaCases<'a> {
    pub(crate) width: usize,
    pub(crate) formula: &'a Formula,
    pub(crate) count: u64,
}

impl<'a> FormulaCases<'a> {
    /// `None` exactly where the formula has more cases than there may be.
    pub(crate) fn new(width: usize, formula: &'a Formula) -> Option<FormulaCases<'a>>
        requires { IsOver width (claim formula.now) }
        ensures { MatchOption result (most_systems < length (cases (claim formula.now)))
            (λ made. (made.width ≡ width) × (made.formula.now ≡ formula.now) × IsCounted width (claim formula.now) made.count) }
    {
        let count = case_count(formula);
        if count > MOST_SYSTEMS {
            return None;
        }
        Some(FormulaCases {
            width,
            formula,
            count,
        })
    }

    /// The system of the case with this number.
    pub(crate) fn system(&self, alloc: Global, number: u64) -> Result<Conj, RefuteFault>
        requires all { IsCounted self.now.width (claim self.now.formula.now) self.now.count }
        requires here { number < self.now.count }
        ensures ok { IfOk result (λ system. system ≡ system_of self.now.width (slice_index_or (cases (claim self.now.formula.now)) number [])) }
        ensures cause { IfErr result (λ fault. fault ≡ Memory) }
    {
        let mut rows = LentRows::new(alloc);
        push_case(&mut rows, self.formula, self.count, number)?;
        Ok(Conj::new(self.width, List::from_vec(rows.copies(alloc)?)))
    }
}

impl<'a> CaseList for FormulaCases<'a> {
    ghost list = { λ made. systems made.width (claim made.formula.now) };

    ghost valid = { λ made. (made.width ≤ 4096) × IsCounted made.width (claim made.formula.now) made.count };

    fn count(&self) -> usize {
        self.count as usize
    }

    fn verdict(&self, alloc: Global, number: usize) -> Result<Verdict, RefuteFault> {
        let system = self.system(alloc, number as u64)?;
        verdict_on(alloc, &system)
    }
}
