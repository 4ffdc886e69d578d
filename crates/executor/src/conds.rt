ghost use Rattle.std.specs.Prelude.{◌≡◌};
ghost use Rattle.executor.specs.Lists as spec;

use q_base::Code;
use q_scalar::{eval_cond, eval_fallible};
use q_value::Value;
use query_tree::Cond;

/// Whether all conditions are true. None of them holds arithmetic, so that none faults.
pub(crate) fn all_true(conds: &[Cond], row: &[Value], params: &[Value]) -> bool
    ensures { result ≡ spec.all_true conds.now row.now params.now }
{
    for cond in conds {
        if !is_true(eval_cond(cond, row, params)) {
            return false;
        }
    }
    true
}

fn is_true(truth: Option<bool>) -> bool
    ensures { result ≡ spec.is_true truth }
{
    match truth {
        Some(truth) => truth,
        None => false,
    }
}

/// Whether all conditions are true, which are taken in their order until one faults or isn't true.
pub(crate) fn judged(conds: &[Cond], row: &[Value], params: &[Value]) -> Result<bool, Code>
    ensures { result ≡ spec.judged conds.now row.now params.now }
{
    for cond in conds {
        let truth = eval_fallible(cond, row, params)?;
        if !is_true(truth) {
            return Ok(false);
        }
    }
    Ok(true)
}
