ghost use Rattle.std.specs.Prelude.{◌≡◌, IfOk};

use crate::{
    Aggregate, AssignedColumn, Assignment, Relation, ResultColumn, ResultType, SortKey, Target,
};
use q_base::{ListOf, NoMemory, Str};
use std::alloc::Global;

/// What a second owner of the same value can be made of.
pub trait Copies: Sized + Drop {
    /// A second owner of the same value, or `NoMemory` where its memory is refused.
    fn copy(&self, alloc: Global) -> Result<Self, NoMemory>
        ensures { IfOk result (λ copy. copy ≡ self.now) };
}

impl<T: Copies> Copies for Option<T> {
    fn copy(&self, alloc: Global) -> Result<Option<T>, NoMemory> {
        match self {
            Some(value) => Ok(Some(value.copy(alloc)?)),
            None => Ok(None),
        }
    }
}

impl<T: Copies> Copies for ListOf<T> {
    fn copy(&self, alloc: Global) -> Result<ListOf<T>, NoMemory> {
        copy_all(alloc, self.as_slice())
    }
}

fn copy_all<T: Copies>(alloc: Global, values: &[T]) -> Result<ListOf<T>, NoMemory>
    ensures { IfOk result (λ copies. copies ≡ values.now) }
{
    let mut copies = ListOf::new(alloc);
    for value in values {
        copies.push(value.copy(alloc)?)?;
    }
    Ok(copies)
}

impl Copies for Str {
    fn copy(&self, alloc: Global) -> Result<Str, NoMemory> {
        Str::copy(self, alloc)
    }
}

impl Copies for Target {
    fn copy(&self, alloc: Global) -> Result<Target, NoMemory> {
        Target::copy(self, alloc)
    }
}

impl Copies for ResultColumn {
    fn copy(&self, alloc: Global) -> Result<ResultColumn, NoMemory> {
        Ok(ResultColumn {
            name: self.name.copy(alloc)?,
            kind: self.kind,
        })
    }
}

impl Copies for ResultType {
    fn copy(&self, alloc: Global) -> Result<ResultType, NoMemory> {
        Ok(ResultType {
            columns: self.columns.copy(alloc)?,
        })
    }
}

impl Copies for Relation {
    fn copy(&self, alloc: Global) -> Result<Relation, NoMemory> {
        Ok(Relation {
            id: self.id,
            name: self.name.copy(alloc)?,
            alias: self.alias.copy(alloc)?,
            columns: self.columns.copy(alloc)?,
            on_conds: self.on_conds,
        })
    }
}

impl Copies for Aggregate {
    fn copy(&self, alloc: Global) -> Result<Aggregate, NoMemory> {
        Ok(match self {
            Aggregate::CountRows => Aggregate::CountRows,
            Aggregate::Count(argument) => Aggregate::Count(argument.copy(alloc)?),
            Aggregate::Sum(argument) => Aggregate::Sum(argument.copy(alloc)?),
            Aggregate::Min(argument) => Aggregate::Min(argument.copy(alloc)?),
            Aggregate::Max(argument) => Aggregate::Max(argument.copy(alloc)?),
        })
    }
}

impl Copies for SortKey {
    fn copy(&self, alloc: Global) -> Result<SortKey, NoMemory> {
        Ok(SortKey {
            target: self.target.copy(alloc)?,
            desc: self.desc,
            nulls_first: self.nulls_first,
        })
    }
}

impl Copies for AssignedColumn {
    fn copy(&self, _: Global) -> Result<AssignedColumn, NoMemory> {
        Ok(*self)
    }
}

impl Copies for Assignment {
    fn copy(&self, alloc: Global) -> Result<Assignment, NoMemory> {
        Ok(Assignment {
            column: self.column,
            value: self.value.copy(alloc)?,
        })
    }
}
