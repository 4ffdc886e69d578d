//! Laws of the meaning of queries.
ghost use Rattle.std.specs.Prelude.{◌≡◌, false, List, [], ◌∷◌, map, Result, Ok, All};
ghost use Rattle.q_base.specs.declared.code.Code.{Code};
ghost use Rattle.q_value.specs.declared.value.Value.{Value};
ghost use Rattle.query_tree.specs.declared.query.Query.{Query};
ghost use Rattle.query_tree.specs.declared.target.CompareOp.TheVariants as compare_op;
ghost use Rattle.query_tree.specs.declared.target.Target.{Target};
ghost use Rattle.query_tree.specs.declared.target.Target.TheVariants as target;
ghost use Rattle.query_tree.specs.Evaluation.{value_of};
ghost use Rattle.query_meaning.specs.Changes.{Unique, has_twice, without_doubles};
ghost use Rattle.query_meaning.specs.Rows.{Meaning};
ghost use Rattle.query_meaning.specs.Answers.{Answers, is_whole_answer};

/// Where the rows of a query are no list, any two answers are equal.
pub fn whole()
    ensures { (query : Query) (params : List Value) (rows : Meaning) (one other : List (Result (List Value) Code)) → is_whole_answer query params rows → Answers query params rows one → Answers query params rows other → one ≡ other }
{}

/// IN is the OR of the comparisons of its operand with each of the values, also where one faults.
pub fn membership()
    ensures { (operand value : Target) (values : List Target) (row params : List Value) → value_of (target.In operand (value ∷ values)) row params ≡ value_of (target.Or (map (λ other. target.Compare compare_op.Equal operand other) (value ∷ values))) row params }
{}

/// BETWEEN is the AND of the comparisons of its operand with the bounds, also where one faults.
pub fn range()
    ensures { (operand low high : Target) (row params : List Value) → value_of (target.Between operand low high) row params ≡ value_of (target.And (target.Compare compare_op.GreaterEqual operand low ∷ target.Compare compare_op.LessEqual operand high ∷ [])) row params }
{}

/// Rows that no unique index refuses are the rows as they were, and none of the indexes has a key twice in them.
pub fn unique()
    ensures { (uniques : List Unique) (rows found : List (List Value)) → without_doubles uniques rows ≡ Ok found → (found ≡ rows) × All (λ index. has_twice index.places rows ≡ false) uniques }
{}
