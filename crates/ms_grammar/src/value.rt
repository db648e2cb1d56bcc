use ms_base::seq::Bytes;
use sqlite_items::Items;

/// A ground term as it is written. A tuple is a function with the empty name.
#[derive(Debug, Drop)]
pub enum Value {
    Number(i64),
    Text(Bytes),
    Function(Bytes, Values),
}

pub type Values = Items<Value>;
