//! Writing JSON: things that are written, and lists of them.
ghost use Rattle.std.specs.Prelude.{IfOk};
ghost use Rattle.std.specs.List.{AllZip};
ghost use Rattle.serde_json.specs.Data.{Data};
ghost use Rattle.serde_json.specs.View.{view};

use serde_json::Value as Json;
use std::alloc::Global;
use value_types::NoMemory;

/// A thing that can be written as JSON.
pub trait ToJson {
    /// The JSON value stands for the thing.
    ghost says: { Self → Data → Type 0 };

    fn to_json(&self, alloc: Global) -> Result<Json, NoMemory>
        ensures { IfOk result (λ json. says self.now (view json)) };
}

/// The JSON of each thing of a list, in order.
pub fn each_json<T: ToJson>(alloc: Global, list: &[T]) -> Result<Vec<Json>, NoMemory>
    ensures { IfOk result (λ v. AllZip (λ x json. T.says x (view json)) list.now v.items) }
{
    let mut found = Vec::new(alloc);
    for item in list {
        found.push(item.to_json(alloc)?)?;
    }
    Ok(found)
}
