//! Laws of this crate's definitions, for the crates above.
ghost use Rattle.std.specs.Prelude.{◌≡◌, false, List, Option, Ok, IfOk};
ghost use Rattle.q_value.specs.declared.value.SqlType.{SqlType};
ghost use Rattle.q_value.specs.declared.value.Value.{Value};
ghost use Rattle.q_value.specs.Values.{IsOf, Fits};
ghost use Rattle.query_tree.specs.declared.target.Target.{Target};
ghost use Rattle.query_tree.specs.Targets.{target_kind, is_fallible};
ghost use Rattle.query_tree.specs.Evaluation.{value_of};
ghost use Rattle.query_tree.specs.Typing.{IsTyped, FitsRow};

/// Without arithmetic a target has a value over each row.
pub fn faults()
    ensures { (target : Target) (row params : List Value) → is_fallible target ≡ false → (found : Value) × (value_of target row params ≡ Ok found) }
{}

/// A typed target tells its type, and over a row and parameters that fit the types its value is of it.
pub fn types()
    ensures told { (columns : List (Option SqlType)) (types : List SqlType) (kind : SqlType) (target : Target) → IsTyped columns types kind target → target_kind target ≡ kind }
    ensures values { (columns : List (Option SqlType)) (types : List SqlType) (kind : SqlType) (target : Target) (row params : List Value) → IsTyped columns types kind target → FitsRow columns row → Fits types params → IfOk (value_of target row params) (IsOf kind) }
{}
