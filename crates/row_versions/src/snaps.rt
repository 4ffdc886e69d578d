use std::marker::Model;

/// A snapshot: the number of the moment whose rows it shows.
#[derive(Clone, Copy)]
pub struct Snap {
    pub(crate) moment: u64,
}

impl Model for Snap {
    ghost use Rattle.std.specs.Prelude.{ℕ};

    ghost Value = { ℕ };

    ghost view = { λ snap. snap.moment };

    ghost inverse = { λ n. record { moment = n } };
}

/// That a snapshot is held, until the pin is handed back.
#[derive(Drop)]
pub struct Pin {
    pub(crate) moment: u64,
}

impl Model for Pin {
    ghost use Rattle.std.specs.Prelude.{ℕ};

    ghost Value = { ℕ };

    ghost view = { λ pin. pin.moment };
}

/// A state to which a rollback may go back.
#[derive(Clone, Copy)]
pub struct HeapMark {
    /// How many changes there were to take back.
    pub(crate) changes: usize,
    /// The number of the snapshot that was the newest.
    pub(crate) moment: u64,
}

impl Model for HeapMark {
    ghost use Rattle.row_versions.specs.Marks.{Mark};

    ghost Value = { Mark };

    ghost view = { λ mark. record { changes = mark.changes; moment = mark.moment } };

    ghost inverse = { λ mark. record { changes = mark.changes; moment = mark.moment } };
}
