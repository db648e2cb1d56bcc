// Second values that are equal to a first one.
ghost use Rattle.std.specs.Prelude.{◌≡◌, IfOk};

use ms_base::memory::OutOfMemory;
use ms_base::seq::{Bytes, Seq};
use ms_grammar::statement::Names;
use ms_grammar::value::{Value, Values};
use sqlite_items::Items;
use std::alloc::Global;

pub(crate) fn duplicate_bytes(alloc: Global, bytes: &Bytes) -> Result<Bytes, OutOfMemory>
    ensures { IfOk result (λ copy. copy ≡ bytes.now) }
{
    Ok(Seq::copied(alloc, bytes.as_slice())?)
}

pub(crate) fn duplicate_names(alloc: Global, names: &[Bytes]) -> Result<Names, OutOfMemory>
    ensures { IfOk result (λ copy. copy ≡ names.now) }
{
    let mut copy = Seq::new(alloc);
    for name in names {
        copy.push(duplicate_bytes(alloc, name)?)?;
    }
    Ok(copy)
}

#[cycle(duplicates)]
pub(crate) fn duplicate_value(alloc: Global, value: &Value) -> Result<Value, OutOfMemory>
    ensures { IfOk result (λ copy. copy ≡ value.now) }
{
    match value {
        Value::Number(n) => Ok(Value::Number(*n)),
        Value::Text(bytes) => Ok(Value::Text(duplicate_bytes(alloc, bytes)?)),
        Value::Function(name, args) => Ok(Value::Function(
            duplicate_bytes(alloc, name)?,
            duplicate_values(alloc, args.as_slice())?,
        )),
    }
}

#[cycle(duplicates)]
fn duplicate_values(alloc: Global, values: &[Value]) -> Result<Values, OutOfMemory>
    ensures { IfOk result (λ copy. copy ≡ values.now) }
{
    let mut copy = Items::new(alloc);
    for value in values {
        copy.push(duplicate_value(alloc, value)?)?;
    }
    Ok(copy)
}
