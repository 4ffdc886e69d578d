//! Facts about the definitions that contracts cite, each as the contract of a function that does nothing.

ghost use Rattle.std.specs.Prelude.{◌≡◌, ℕ};
ghost use Rattle.q_base.specs.declared.ids.ObjId.{ObjId};
ghost use Rattle.row_versions.specs.State.{State, shown, rows, row_of};

/// A slot shows the row that the rows of its table have for it.
pub fn shown_by_rows()
    ensures { (state : State) (table : ObjId) (slot snap : ℕ) → shown state table slot snap ≡ row_of slot (rows state table snap) }
{}
