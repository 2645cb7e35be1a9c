//! An expression at a point, laid out as steps behind those of a body.

ghost use Rattle.std.specs.Prelude.{◌≡◌, ◌≤◌, ◌<◌, ◌^◌, ◌+◌, ◌∷◌, ◌++◌, ◌⊎◌, [], length, All, Contains, OnOk, IfErr, MatchBool};
ghost use Rattle.az_lin.specs.Affine.{IsCoordinate};
ghost use Rattle.az_lin.specs.Substitution.{Point};
ghost use Rattle.az_ast.specs.Operators.{FoldsFromIdentity};
ghost use Rattle.az_ast.specs.Term.{term};
ghost use Rattle.az_ast.specs.Tables.{InputGives};
ghost use Rattle.loop_scan.specs.Members.{IsPoint};
ghost use Rattle.az_lin.specs.declared.limit.Limit.TheVariants.{Loads};
ghost use Rattle.loop_scan.specs.declared.fault.ScanFault.TheVariants as limit;
ghost use Rattle.loop_scan.specs.declared.fault.ScanFault.TheVariants.{Memory};
ghost use Rattle.plan_steps.specs.Layouts.{with_load};
ghost use Rattle.plan_steps.specs.Inner.Laid.{HasInput, IsAnswered, IsReadyAt, ReadAnswers, LayAnswers, FoldAnswers};

use crate::body::Body;
use crate::given::{Given, Room};
use az_ast::{Expr, Op, Role, identity_of, wrap};
use az_lin::Limit;
use execution::Step;
use loop_scan::{ScanFault, Scanner};
use sqlite_items::at;
use std::alloc::Global;

/// Writes the next point, if there is one.
fn advance(scanner: &mut Scanner, point: &mut Vec<i128>) -> bool
    requires { length point.old.items ≡ scanner.old.width }
    ensures width { scanner.new.width ≡ scanner.old.width }
    ensures room { length point.new.items ≡ scanner.new.width }
    ensures point { MatchBool result (scanner.old.to_come ≡ point.new.items ∷ scanner.new.to_come) ((scanner.old.to_come ≡ []) × (scanner.new.to_come ≡ [])) }
{
    scanner.next_point(point.as_mut_slice())
}

/// Lays out a load of the variable's instance, if there is room for one.
fn push_read(
    alloc: Global,
    x: u32,
    k: &[i128],
    room: Room,
    body: &mut Body,
) -> Result<(), ScanFault>
    ensures ok { OnOk result (body.new ≡ with_load body.old (record { variable = x; point = k.now })) }
    ensures room { OnOk result (length body.old.loads < room.loads) }
    ensures cause { IfErr result (λ fault. (fault ≡ Memory) ⊎ ((fault ≡ limit.Limit Loads) × (room.loads ≤ length body.old.loads))) }
{
    if body.loads().len() as u64 >= room.loads {
        return Err(ScanFault::Limit(Limit::Loads));
    }
    body.push_load(alloc, x, k)?;
    Ok(())
}

impl Given<'_> {
    fn input_value(&self, x: u32, k: &[i128]) -> i64
        requires { HasInput self.now.inputs.now x k.now }
        ensures { InputGives self.now.inputs.now x k.now result }
    {
        let Some(table) = self.inputs.table(x) else {
            unreachable!()
        };
        let Some(value) = table.value(k) else {
            unreachable!()
        };
        value
    }

    /// Lays out a read of the variable at the indices `k`.
    fn read(
        &self,
        alloc: Global,
        x: u32,
        k: &[i128],
        room: Room,
        body: &mut Body,
    ) -> Result<(), ScanFault>
        requires { IsAnswered self.now.program.now self.now.inputs.now x self.now.params.now k.now }
        ensures { ReadAnswers self.now.program.now self.now.inputs.now x k.now room.loads body.old body.new result }
    {
        let Some(variable) = at(self.program.variables(), x as usize) else {
            unreachable!()
        };
        match variable.role {
            Role::Input => {
                let value = self.input_value(x, k);
                body.push_constant(value)?;
                Ok(())
            }
            Role::Output => {
                push_read(alloc, x, k, room, body)?;
                Ok(())
            }
            Role::Local => {
                push_read(alloc, x, k, room, body)?;
                Ok(())
            }
        }
    }

    /// Lays out the fold of the expression over the points that the scanner has to come, each behind
    /// the point of the outer columns.
    #[cycle(laying)]
    fn lay_fold(
        &self,
        alloc: Global,
        op: Op,
        e: &Expr,
        z: &[i128],
        scanner: Scanner,
        room: Room,
        body: &mut Body,
    ) -> Result<(), ScanFault>
        requires folds { FoldsFromIdentity op }
        requires each { (k : Point) → Contains scanner.to_come k → IsReadyAt self.now.program.now self.now.inputs.now (term e.now) (z.now ++ k) }
        requires width { All (IsPoint scanner.width) scanner.to_come }
        requires narrow { length z.now + scanner.width ≤ 64 }
        requires range { All IsCoordinate z.now }
        requires few { room.points < 2 ^ 63 }
        requires points { body.old.points ≤ room.points }
        requires loads { length body.old.loads ≤ room.loads }
        ensures { FoldAnswers self.now.program.now self.now.inputs.now op (term e.now) z.now scanner.to_come room.points room.loads body.old body.new result }
    {
        body.push_constant(identity_of(op))?;
        let mut scanner = scanner;
        let mut k = vec![in alloc; 0; scanner.width()]?;
        let mut point = Vec::from_slice(alloc, z)?;
        'members: while advance(&mut scanner, &mut k) {
            if body.points() >= room.points {
                return Err(ScanFault::Limit(Limit::Points));
            }
            body.count_point();
            point.truncate(z.len());
            point.extend_from_slice(&k)?;
            self.lay(alloc, e, &point, room, body)?;
            body.push_operation(Step::Binary(op))?;
        }
        Ok(())
    }

    /// Lays out the expression at the point of its columns.
    #[cycle(laying)]
    pub(crate) fn lay(
        &self,
        alloc: Global,
        e: &Expr,
        z: &[i128],
        room: Room,
        body: &mut Body,
    ) -> Result<(), ScanFault>
        requires ready { IsReadyAt self.now.program.now self.now.inputs.now (term e.now) z.now }
        requires narrow { length z.now ≤ 64 }
        requires range { All IsCoordinate z.now }
        requires few { room.points < 2 ^ 63 }
        requires points { body.old.points ≤ room.points }
        requires loads { length body.old.loads ≤ room.loads }
        ensures { LayAnswers self.now.program.now self.now.inputs.now (term e.now) z.now room.points room.loads body.old body.new result }
    {
        match e {
            Expr::Const(v) => {
                body.push_constant(*v)?;
                Ok(())
            }
            Expr::Index(row) => {
                let value = wrap(row.value(z));
                body.push_constant(value)?;
                Ok(())
            }
            Expr::Access(x, f) => {
                let mut image = [0; 8];
                let image = &mut image[..f.rows().len()];
                f.apply(z, image);
                self.read(alloc, *x, image, room, body)?;
                Ok(())
            }
            Expr::Neg(e) => {
                self.lay(alloc, e.get(), z, room, body)?;
                body.push_operation(Step::Negated)?;
                Ok(())
            }
            Expr::Bin(op, a, b) => {
                self.lay(alloc, a.get(), z, room, body)?;
                self.lay(alloc, b.get(), z, room, body)?;
                body.push_operation(Step::Binary(*op))?;
                Ok(())
            }
            Expr::Cases(branches) => {
                'branches: for branch in branches.as_slice() {
                    if branch.domain.holds(z) {
                        return self.lay(alloc, &branch.body, z, room, body);
                    }
                }
                unreachable!()
            }
            Expr::Reduce(op, _, domain, e) => {
                let scanner = match Scanner::new(alloc, domain, z) {
                    Ok(scanner) => scanner,
                    Err(fault) => return Err(fault),
                };
                self.lay_fold(alloc, *op, e.get(), z, scanner, room, body)
            }
        }
    }
}
