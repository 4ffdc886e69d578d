ghost use Rattle.std.specs.Prelude.{◌≡◌};

use crate::ObjId;

/// What is told of changes of the catalog: of one object, or of all at once.
pub trait Touched {
    ghost use Rattle.q_base.specs.declared.ids.ObjId.{ObjId};

    /// The state after it has heard of an object's change.
    ghost hear: { Self → ObjId → Self };

    /// The state after it has heard that everything changed.
    ghost hear_all: { Self → Self };

    /// Tells that `id` was changed, dropped or restored.
    fn touched(&mut self, id: ObjId)
        ensures { self.new ≡ hear self.old id };

    /// Tells of a change that concerns every object, as that of a schema.
    fn touched_all(&mut self)
        ensures { self.new ≡ hear_all self.old };
}
