// The functions that an expression may call.
ghost use Rattle.calculator.specs.Worth.{IsFunctionNamed, CallGives, IsRoot};

use crate::arithmetic::{Value, fitting};
use crate::error::CalculationError;

#[derive(Clone, Copy, Debug)]
pub(crate) enum Function {
    /// `abs`: the number without its sign.
    Magnitude,
    /// `sqrt`: the whole number whose square it is.
    Root,
}

impl Function {
    /// The function of that name.
    pub(crate) fn named(name: &str) -> Option<Function>
        ensures { IsFunctionNamed name.now result }
    {
        match name {
            "abs" => Some(Function::Magnitude),
            "sqrt" => Some(Function::Root),
            _ => None,
        }
    }

    /// What it makes of a number. Its name stands in that column.
    pub(crate) fn of(self, number: i64, column: u32) -> Result<Value, CalculationError>
        ensures { CallGives self number column result }
    {
        match self {
            Function::Magnitude => fitting(number.checked_abs(), column),
            Function::Root => match root(number) {
                Some(root) => Ok(Value::Number(root)),
                None => Err(CalculationError::NoRoot { column }),
            },
        }
    }
}

fn root(number: i64) -> Option<i64>
    ensures { IsRoot number result }
{
    let square = u64::try_from(number).ok()?;
    let root = square.isqrt();
    if root * root == square {
        Some(root as i64)
    } else {
        None
    }
}
