//! Putting answers together, field by field and item by item. Where an allocation for one of them
//! fails, this is reported once, with the whole.

use serde_json::{Map, Value};
use std::alloc::{AllocError, Global};

/// What an answer can hold.
pub trait Written {
    /// It as a value.
    fn written(self, alloc: Global) -> Result<Value, AllocError>;
}

impl Written for &str {
    fn written(self, alloc: Global) -> Result<Value, AllocError> {
        Value::try_from_str(alloc, self)
    }
}

impl Written for &String {
    fn written(self, alloc: Global) -> Result<Value, AllocError> {
        Value::try_from_str(alloc, self.as_str())
    }
}

impl Written for bool {
    fn written(self, _alloc: Global) -> Result<Value, AllocError> {
        Ok(Value::Bool(self))
    }
}

impl Written for u64 {
    fn written(self, _alloc: Global) -> Result<Value, AllocError> {
        Ok(Value::from(self))
    }
}

impl Written for usize {
    fn written(self, _alloc: Global) -> Result<Value, AllocError> {
        Ok(Value::from(self))
    }
}

/// `null` where there is none.
impl<T: Written> Written for Option<T> {
    fn written(self, alloc: Global) -> Result<Value, AllocError> {
        match self {
            Some(value) => value.written(alloc),
            None => Ok(Value::Null),
        }
    }
}

impl<'a, T> Written for &'a [T]
where
    &'a T: Written,
{
    fn written(self, alloc: Global) -> Result<Value, AllocError> {
        let mut items = Items::new(alloc);
        for item in self {
            items.put(item);
        }
        items.value()
    }
}

/// The fields of an answer.
#[derive(Drop)]
pub struct Answer {
    alloc: Global,
    members: Map<String, Value>,
    is_refused: bool,
}

impl Answer {
    /// An answer without fields.
    pub fn new(alloc: Global) -> Answer {
        Answer {
            alloc,
            members: Map::new(alloc),
            is_refused: false,
        }
    }

    /// Gives the field of this name what is written of a thing.
    pub fn put<T: Written>(&mut self, name: &str, written: T) {
        self.put_value(name, written.written(self.alloc));
    }

    /// Gives the field of this name a value, unless there was no memory to make it.
    pub fn put_value(&mut self, name: &str, value: Result<Value, AllocError>) {
        match value {
            Ok(value) => self.put_made(name, value),
            Err(_) => self.is_refused = true,
        }
    }

    fn put_made(&mut self, name: &str, value: Value) {
        if let Err(_) = serde_json::put(&mut self.members, self.alloc, name, value) {
            self.is_refused = true;
        }
    }

    /// The answer as a value, unless out of memory.
    pub fn value(self) -> Result<Value, AllocError> {
        if self.is_refused {
            Err(AllocError)
        } else {
            Ok(Value::Object(self.members))
        }
    }
}

/// The items of a list.
#[derive(Drop)]
pub struct Items {
    alloc: Global,
    items: Vec<Value>,
    is_refused: bool,
}

impl Items {
    /// A list without items.
    pub fn new(alloc: Global) -> Items {
        Items {
            alloc,
            items: Vec::new(alloc),
            is_refused: false,
        }
    }

    /// Appends what is written of a thing.
    pub fn put<T: Written>(&mut self, written: T) {
        self.put_value(written.written(self.alloc));
    }

    /// Appends a value, unless there was no memory to make it.
    pub fn put_value(&mut self, value: Result<Value, AllocError>) {
        match value {
            Ok(value) => self.put_made(value),
            Err(_) => self.is_refused = true,
        }
    }

    fn put_made(&mut self, value: Value) {
        if let Err(_) = self.items.push(value) {
            self.is_refused = true;
        }
    }

    /// The list as a value, unless out of memory.
    pub fn value(self) -> Result<Value, AllocError> {
        if self.is_refused {
            Err(AllocError)
        } else {
            Ok(Value::Array(self.items))
        }
    }
}
