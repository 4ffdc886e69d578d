ghost use Rattle.std.specs.Prelude.{◌≡◌, [], ◌∷◌, IfOk};
ghost use Rattle.q_base.specs.Stops.{StopsBy};

use q_base::{Args, Code, ListOf, NoMemory, SqlError, Stop, Str};
use std::alloc::Global;

/// The refusal of a code whose text names `first`, `second` and `third`.
pub fn refusal_naming_three(
    alloc: Global,
    code: Code,
    first: &str,
    second: &str,
    third: &str,
) -> Stop
    ensures { StopsBy (λ e. e ≡ record { code = code; args = first.now ∷ second.now ∷ third.now ∷ [] }) result }
{
    match three_arguments(alloc, first, second, third) {
        Ok(args) => Stop::Sql(SqlError { code, args }),
        Err(NoMemory) => Stop::NoMemory,
    }
}

fn three_arguments(alloc: Global, first: &str, second: &str, third: &str) -> Result<Args, NoMemory>
    ensures { IfOk result (λ args. args ≡ first.now ∷ second.now ∷ third.now ∷ []) }
{
    let mut args = ListOf::new(alloc);
    args.push(Str::from_text(alloc, first)?)?;
    args.push(Str::from_text(alloc, second)?)?;
    args.push(Str::from_text(alloc, third)?)?;
    Ok(args)
}
