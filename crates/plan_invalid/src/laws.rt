//! What a change leaves of each source, for callers that tell changes through `Touched`. The laws
//! are contracts of functions that do nothing.
ghost use Rattle.std.specs.Prelude.{◌≡◌};
ghost use Rattle.std.specs.Option.{option_map};
ghost use Rattle.q_base.specs.declared.ids.ObjId.{ObjId};
ghost use Rattle.plan_invalid.specs.declared.source.SourceId.{SourceId};
ghost use Rattle.plan_invalid.specs.Sources.{Sources, source_of, marked, told, told_all, all_marked};

/// After a change of one object each source is as it was, but marked where it watches the object.
pub fn law_touched()
    ensures { (sources : Sources) (id : ObjId) (source : SourceId) → source_of (told_all sources id) source ≡ option_map (told id) (source_of sources source) }
{}

/// After a change of everything each source is as it was, but marked.
pub fn law_touched_all()
    ensures { (sources : Sources) (source : SourceId) → source_of (all_marked sources) source ≡ option_map marked (source_of sources source) }
{}
