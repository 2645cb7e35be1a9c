//! What a body is settled in.

ghost use Rattle.std.specs.Prelude.{◌≡◌, ◌≤◌, ◌<◌, ◌^◌, ◌++◌, length, All, OnOk, IfErr};
ghost use Rattle.az_lin.specs.Affine.{HoldsSome, IsCoordinate};
ghost use Rattle.az_ast.specs.Certified.{IsCertified};
ghost use Rattle.az_ast.specs.Points.{IsPointOf};
ghost use Rattle.az_ast.specs.Shapes.{IsProgram};
ghost use Rattle.target_map.specs.Settings.{is_written};
ghost use Rattle.target_map.specs.Times.{domain_of};
ghost use Rattle.value_walk.specs.Meanings.{HaveInputs};
ghost use Rattle.plan_steps.specs.Settled.{IsSettled, RefusesBody, AtBody};

use crate::body::Body;
use az_ast::{Inputs, Program};
use loop_scan::ScanFault;
use std::alloc::Global;

/// A program at some parameters and tables of its inputs.
#[derive(Debug, Clone, Copy)]
pub struct Given<'a> {
    pub program: &'a Program,
    pub params: &'a [i128],
    pub inputs: &'a Inputs,
}

/// How many points of reductions and how many loads a body may have.
#[derive(Debug, Clone, Copy)]
pub struct Room {
    pub points: u64,
    pub loads: u64,
}

/// Lets a caller know that the program keeps the rules.
fn rules(program: &Program)
    ensures { IsProgram program.now }
{
    let _ = program.variables();
}

impl Given<'_> {
    /// Settles the body of the variable's instance at the point, in place of what `body` was.
    pub fn settle(
        &self,
        alloc: Global,
        variable: u32,
        point: &[i128],
        room: Room,
        body: &mut Body,
    ) -> Result<(), ScanFault>
        requires certified { IsCertified self.now.program.now }
        requires inside { HoldsSome self.now.program.now.pdom self.now.params.now }
        requires inputs { HaveInputs self.now.program.now self.now.inputs.now self.now.params.now }
        requires written { is_written self.now.program.now variable }
        requires point { IsPointOf (length self.now.program.now.params) (domain_of self.now.program.now variable) self.now.params.now point.now }
        requires range { All IsCoordinate (self.now.params.now ++ point.now) }
        requires few { room.points < 2 ^ 63 }
        ensures ok { OnOk result (AtBody self.now.program.now self.now.inputs.now variable (λ e. IsSettled self.now.program.now self.now.inputs.now e (self.now.params.now ++ point.now) body.new)) }
        ensures points { OnOk result (body.new.points ≤ room.points) }
        ensures loads { OnOk result (length body.new.loads ≤ room.loads) }
        ensures cause { IfErr result (λ fault. AtBody self.now.program.now self.now.inputs.now variable (λ e. RefusesBody self.now.program.now self.now.inputs.now e (self.now.params.now ++ point.now) room.points room.loads fault)) }
    {
        rules(self.program);
        let Some(equation) = self.program.equation(variable) else {
            unreachable!()
        };
        let mut z = Vec::from_slice(alloc, self.params)?;
        z.extend_from_slice(point)?;
        body.clear();
        match self.lay(alloc, &equation.body, &z, room, body) {
            Ok(()) => Ok(()),
            Err(fault) => Err(fault),
        }
    }
}
