//! Laws of this crate's definitions.
ghost use Rattle.std.specs.Prelude.{◌≡◌, List, [], ◌∷◌, map};
ghost use Rattle.query_tree.specs.declared.target.Target.{Target};
ghost use Rattle.query_tree.specs.declared.target.Target.TheVariants as target;
ghost use Rattle.query_tree.specs.declared.target.CompareOp.TheVariants as compare;
ghost use Rattle.expr_analysis.specs.Same.{same_target, equality};

/// An IN is the same as other targets exactly where the OR of its comparisons is, and a BETWEEN where the AND of
/// its two comparisons is.
pub fn spelled_out()
    ensures member { (operand other : Target) (values : List Target) → same_target (target.In operand values) other ≡ same_target (target.Or (map (equality operand) values)) other }
    ensures range { (operand low high other : Target) → same_target (target.Between operand low high) other ≡ same_target (target.And (target.Compare compare.GreaterEqual operand low ∷ target.Compare compare.LessEqual operand high ∷ [])) other }
{}
