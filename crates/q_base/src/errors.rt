ghost use Rattle.std.specs.Prelude.{◌≡◌, [], ◌∷◌, IfOk};
ghost use Rattle.q_base.specs.declared.errors.Stop.{Stop};
ghost use Rattle.q_base.specs.Stops.{StopsBy};

use crate::{Args, Code, ListOf, Str};
use std::alloc::{AllocError, AllocFailed, Global};
use thiserror::Error;

/// Memory was refused. The value that was being changed is only dropped after it.
#[derive(Clone, Copy, Debug, PartialEq, Eq, Error)]
#[error("out of memory")]
pub struct NoMemory;

impl From<AllocError> for NoMemory {
    fn from(_: AllocError) -> NoMemory {
        NoMemory
    }
}

impl<T: Drop> From<AllocFailed<T>> for NoMemory {
    fn from(_: AllocFailed<T>) -> NoMemory {
        NoMemory
    }
}

/// A refusal as it is printed: its code, and the arguments of its text in order.
#[derive(Debug, Drop)]
pub struct SqlError {
    pub code: Code,
    pub args: Args,
}

/// Why a call gave no answer.
#[derive(Debug, Drop)]
pub enum Stop {
    Sql(SqlError),
    NoMemory,
}

impl From<NoMemory> for Stop {
    ghost use Rattle.std.specs.Prelude.{◌≡◌};
    ghost use Rattle.q_base.specs.declared.errors.Stop.TheVariants as stop;

    ghost from_gives = { λ _ e. e ≡ stop.NoMemory };

    fn from(_: NoMemory) -> Stop {
        Stop::NoMemory
    }
}

impl From<AllocError> for Stop {
    ghost use Rattle.std.specs.Prelude.{◌≡◌};
    ghost use Rattle.q_base.specs.declared.errors.Stop.TheVariants as stop;

    ghost from_gives = { λ _ e. e ≡ stop.NoMemory };

    fn from(_: AllocError) -> Stop {
        Stop::NoMemory
    }
}

impl<T: Drop> From<AllocFailed<T>> for Stop {
    ghost use Rattle.std.specs.Prelude.{◌≡◌};
    ghost use Rattle.q_base.specs.declared.errors.Stop.TheVariants as stop;

    ghost from_gives = { λ _ e. e ≡ stop.NoMemory };

    fn from(_: AllocFailed<T>) -> Stop {
        Stop::NoMemory
    }
}

/// The refusal of a code whose text has no argument.
pub fn refusal(alloc: Global, code: Code) -> Stop
    ensures { result ≡ Stop.Sql (record { code = code; args = [] }) }
{
    Stop::Sql(SqlError {
        code,
        args: ListOf::new(alloc),
    })
}

/// The refusal of a code whose text names `name`.
pub fn refusal_naming(alloc: Global, code: Code, name: &str) -> Stop
    ensures { StopsBy (λ e. e ≡ record { code = code; args = name.now ∷ [] }) result }
{
    match one_argument(alloc, name) {
        Ok(args) => Stop::Sql(SqlError { code, args }),
        Err(NoMemory) => Stop::NoMemory,
    }
}

/// The refusal of a code whose text names `first` and then `second`.
pub fn refusal_naming_two(alloc: Global, code: Code, first: &str, second: &str) -> Stop
    ensures { StopsBy (λ e. e ≡ record { code = code; args = first.now ∷ second.now ∷ [] }) result }
{
    match two_arguments(alloc, first, second) {
        Ok(args) => Stop::Sql(SqlError { code, args }),
        Err(NoMemory) => Stop::NoMemory,
    }
}

fn one_argument(alloc: Global, name: &str) -> Result<Args, NoMemory>
    ensures { IfOk result (λ args. args ≡ name.now ∷ []) }
{
    let mut args = ListOf::new(alloc);
    args.push(Str::from_text(alloc, name)?)?;
    Ok(args)
}

fn two_arguments(alloc: Global, first: &str, second: &str) -> Result<Args, NoMemory>
    ensures { IfOk result (λ args. args ≡ first.now ∷ second.now ∷ []) }
{
    let mut args = one_argument(alloc, first)?;
    args.push(Str::from_text(alloc, second)?)?;
    Ok(args)
}
