//! Laws of the costs, on which the search for a least plan stands.
ghost use Rattle.std.specs.Prelude.{ℕ, Bool, ◌≤◌};
ghost use Rattle.cost_units.specs.Costs as spec;

/// No node's cost falls where the cost of an input rises.
pub fn costs_rise()
    ensures charged { (is_on : Bool) (cost more : ℕ) → cost ≤ more → spec.charged cost is_on ≤ spec.charged more is_on }
    ensures subquery_scan { (rows conds input more : ℕ) → input ≤ more → spec.subquery_scan_cost input rows conds ≤ spec.subquery_scan_cost more rows conds }
    ensures nested_loop { (rows outer outer_more inner inner_more : ℕ) → outer ≤ outer_more → inner ≤ inner_more → spec.nested_loop_cost outer rows inner ≤ spec.nested_loop_cost outer_more rows inner_more }
    ensures hash_join { (rows inner_rows outer outer_more inner inner_more : ℕ) → outer ≤ outer_more → inner ≤ inner_more → spec.hash_join_cost outer inner rows inner_rows ≤ spec.hash_join_cost outer_more inner_more rows inner_rows }
    ensures check { (rows conds input more : ℕ) → input ≤ more → spec.check_cost input rows conds ≤ spec.check_cost more rows conds }
    ensures aggregate { (rows calls input more : ℕ) → input ≤ more → spec.aggregate_cost input rows calls ≤ spec.aggregate_cost more rows calls }
    ensures unique { (rows input more : ℕ) → input ≤ more → spec.unique_cost input rows ≤ spec.unique_cost more rows }
    ensures sort { (rows input more : ℕ) → input ≤ more → spec.sort_cost input rows ≤ spec.sort_cost more rows }
{}
