//! The stack on which the steps of a body are carried out.

ghost use Rattle.std.specs.Prelude.{◌≡◌, ◌≤◌, length};
ghost use Rattle.execution.specs.Bodies.{body_value, moved};
ghost use Rattle.plan_steps.specs.Runs.{Runs};
ghost use Rattle.plan_steps.specs.Settled.{most_height};
ghost use Rattle.plan_steps.specs.Inner.Machines.{machine_at, CanMove, moved_on};

use az_ast::{Op, apply_op};
use execution::Step;

/// The most values that the steps of a body hold at once.
const MOST_HEIGHT: usize = 512;

/// How many constants and loaded values were taken, and how many values the stack has.
#[derive(Debug, Clone, Copy)]
pub(crate) struct Cursor {
    next: usize,
    taken: usize,
    height: usize,
}

impl Cursor {
    /// Carries one step out.
    fn moved(self, step: Step, constants: &[i64], loaded: &[i64], stack: &mut [i64]) -> Cursor
        requires { CanMove step self (length constants.now) (length loaded.now) (length stack.old) }
        ensures machine { machine_at result constants.now loaded.now stack.new ≡ moved step (machine_at self constants.now loaded.now stack.old) }
        ensures cursor { result ≡ moved_on step self }
        ensures room { length stack.new ≡ length stack.old }
    {
        let Cursor {
            next,
            taken,
            height,
        } = self;
        match step {
            Step::Constant => {
                stack[height] = constants[next];
                Cursor {
                    next: next + 1,
                    taken,
                    height: height + 1,
                }
            }
            Step::Loaded => {
                stack[height] = loaded[taken];
                Cursor {
                    next,
                    taken: taken + 1,
                    height: height + 1,
                }
            }
            Step::Negated => {
                stack[height - 1] = apply_op(Op::Sub, 0, stack[height - 1]);
                self
            }
            Step::Binary(op) => {
                stack[height - 2] = apply_op(op, stack[height - 2], stack[height - 1]);
                Cursor {
                    next,
                    taken,
                    height: height - 1,
                }
            }
        }
    }
}

/// The value that the steps leave on the stack.
fn carried_out(steps: &[Step], constants: &[i64], loaded: &[i64], stack: &mut [i64]) -> i64
    requires { Runs (length stack.old) steps.now (length constants.now) (length loaded.now) 0 }
    ensures { result ≡ body_value steps.now constants.now loaded.now }
{
    let mut cursor = Cursor {
        next: 0,
        taken: 0,
        height: 0,
    };
    'steps: for step in steps {
        cursor = cursor.moved(*step, constants, loaded, stack);
    }
    if cursor.height == 0 {
        return 0;
    }
    stack[cursor.height - 1]
}

/// The value that the steps make of the constants and the loaded values, which are one for each load.
pub fn value_of(steps: &[Step], constants: &[i64], loaded: &[i64]) -> i64
    requires { Runs most_height steps.now (length constants.now) (length loaded.now) 0 }
    ensures { result ≡ body_value steps.now constants.now loaded.now }
{
    let mut stack = [0; MOST_HEIGHT];
    carried_out(steps, constants, loaded, &mut stack)
}
