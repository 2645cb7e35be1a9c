//! Tables by the numbers of the variables: those of the inputs, and those that a run fills.

ghost use Rattle.std.specs.Prelude.{◌≡◌, OnOk, OnErr, IfOk, IfErr};
ghost use Rattle.std.specs.Option.{option_copied};
ghost use Rattle.std.specs.FinMap as map;
ghost use Rattle.az_ast.specs.declared.fault.ShapeFault.TheVariants.{Memory};

use crate::{ShapeFault, Table};
use std::alloc::Global;
use std::collections::BTreeMap;
use std::marker::Model;

#[derive(Debug, Drop)]
struct TableMap {
    tables: BTreeMap<u32, Table>,
}

impl Model for TableMap {
    ghost use Rattle.std.specs.Coded.{coded_ℕ, coded_list, coded×, coded_ℤ};
    ghost use Rattle.std.specs.FinMap as map;
    ghost use Rattle.az_ast.specs.Tables.{Tables};

    ghost Value = { Tables };

    ghost coded = { map.code coded_ℕ (coded_list (coded× (coded_list coded_ℤ) coded_ℤ)) };

    ghost view = { λ m. map.from_entries m.tables.entries };
}

impl TableMap {
    fn new(alloc: Global) -> TableMap
        ensures { result ≡ map.empty }
    {
        TableMap {
            tables: BTreeMap::new(alloc),
        }
    }

    fn set(&mut self, variable: u32, table: Table) -> Result<(), ShapeFault>
        ensures ok { OnOk result (self.new ≡ map.insert self.old variable table) }
        ensures err { OnErr result (self.new ≡ self.old) }
        ensures cause { IfErr result (λ fault. fault ≡ Memory) }
    {
        self.tables.insert(variable, table)?;
        Ok(())
    }

    fn table(&self, variable: u32) -> Option<&Table>
        ensures { option_copied result ≡ map.get self.now variable }
    {
        self.tables.get(&variable)
    }

    fn copy(&self, alloc: Global) -> Result<TableMap, ShapeFault>
        ensures ok { IfOk result (λ copied. copied ≡ self.now) }
        ensures cause { IfErr result (λ fault. fault ≡ Memory) }
    {
        let mut copies = BTreeMap::new(alloc);
        'tables: for (variable, table) in self.tables.iter().rev() {
            let copied = table.copy(alloc)?;
            copies.insert(*variable, copied)?;
        }
        Ok(TableMap { tables: copies })
    }
}

/// The tables of a program's inputs.
#[derive(Debug, Drop)]
pub struct Inputs {
    tables: TableMap,
}

impl Model for Inputs {
    ghost use Rattle.std.specs.Coded.{coded_ℕ, coded_list, coded×, coded_ℤ};
    ghost use Rattle.std.specs.FinMap as map;
    ghost use Rattle.az_ast.specs.Tables.{Tables};

    ghost Value = { Tables };

    ghost coded = { map.code coded_ℕ (coded_list (coded× (coded_list coded_ℤ) coded_ℤ)) };

    ghost view = { λ inputs. inputs.tables };
}

impl Inputs {
    pub fn new(alloc: Global) -> Inputs
        ensures { result ≡ map.empty }
    {
        Inputs {
            tables: TableMap::new(alloc),
        }
    }

    /// Puts the table under the number, in place of an earlier one.
    pub fn set(&mut self, variable: u32, table: Table) -> Result<(), ShapeFault>
        ensures ok { OnOk result (self.new ≡ map.insert self.old variable table) }
        ensures err { OnErr result (self.new ≡ self.old) }
        ensures cause { IfErr result (λ fault. fault ≡ Memory) }
    {
        self.tables.set(variable, table)
    }

    pub fn table(&self, variable: u32) -> Option<&Table>
        ensures { option_copied result ≡ map.get self.now variable }
    {
        self.tables.table(variable)
    }

    /// Equal tables in memory of their own.
    pub fn copy(&self, alloc: Global) -> Result<Inputs, ShapeFault>
        ensures ok { IfOk result (λ copied. copied ≡ self.now) }
        ensures cause { IfErr result (λ fault. fault ≡ Memory) }
    {
        let tables = self.tables.copy(alloc)?;
        Ok(Inputs { tables })
    }
}

/// The tables that a run fills: one for each output and local.
#[derive(Debug, Drop)]
pub struct Values {
    tables: TableMap,
}

impl Model for Values {
    ghost use Rattle.std.specs.Coded.{coded_ℕ, coded_list, coded×, coded_ℤ};
    ghost use Rattle.std.specs.FinMap as map;
    ghost use Rattle.az_ast.specs.Tables.{Tables};

    ghost Value = { Tables };

    ghost coded = { map.code coded_ℕ (coded_list (coded× (coded_list coded_ℤ) coded_ℤ)) };

    ghost view = { λ inputs. inputs.tables };
}

impl Values {
    pub fn new(alloc: Global) -> Values
        ensures { result ≡ map.empty }
    {
        Values {
            tables: TableMap::new(alloc),
        }
    }

    /// Puts the table under the number, in place of an earlier one.
    pub fn set(&mut self, variable: u32, table: Table) -> Result<(), ShapeFault>
        ensures ok { OnOk result (self.new ≡ map.insert self.old variable table) }
        ensures err { OnErr result (self.new ≡ self.old) }
        ensures cause { IfErr result (λ fault. fault ≡ Memory) }
    {
        self.tables.set(variable, table)
    }

    pub fn table(&self, variable: u32) -> Option<&Table>
        ensures { option_copied result ≡ map.get self.now variable }
    {
        self.tables.table(variable)
    }

    /// Equal tables in memory of their own.
    pub fn copy(&self, alloc: Global) -> Result<Values, ShapeFault>
        ensures ok { IfOk result (λ copied. copied ≡ self.now) }
        ensures cause { IfErr result (λ fault. fault ≡ Memory) }
    {
        let tables = self.tables.copy(alloc)?;
        Ok(Values { tables })
    }
}
