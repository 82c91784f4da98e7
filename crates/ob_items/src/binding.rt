ghost use Rattle.std.specs.Prelude.{◌≡◌, Some};

use crate::{Ref, Value};
use std::marker::Model;

/// What the box of a captured binding holds: a value, or none before its declaration has run. It is as
/// large as a value.
#[derive(Drop)]
pub struct Binding {
    content: Content,
}

// A value's cases, with one more.
#[derive(Clone, Copy, Debug, PartialEq, Eq)]
enum Content {
    Nothing,
    Undefined,
    Null,
    Bool(bool),
    Int(i64),
    Builtin(u16),
    Holder(u32),
    Ref(Ref),
}

impl Model for Binding {
    ghost use Rattle.std.specs.Prelude.{Option};
    ghost use Rattle.ob_items.specs.declared.value.Value.{Value as TheValue};
    ghost use Rattle.ob_items.specs.Binding.{content_value};

    ghost Value = { Option TheValue };

    ghost view = { λ b. content_value b.content };
}

impl Binding {
    /// The binding of this value, or of none.
    pub fn new(value: Option<Value>) -> Binding
        ensures { result ≡ value }
    {
        let content = match value {
            None => Content::Nothing,
            Some(Value::Undefined) => Content::Undefined,
            Some(Value::Null) => Content::Null,
            Some(Value::Bool(flag)) => Content::Bool(flag),
            Some(Value::Int(number)) => Content::Int(number),
            Some(Value::Builtin(number)) => Content::Builtin(number),
            Some(Value::Holder(number)) => Content::Holder(number),
            Some(Value::Ref(r)) => Content::Ref(r),
        };
        Binding { content }
    }

    /// What it holds.
    pub fn get(&self) -> Option<Value>
        ensures { result ≡ self.now }
    {
        match self.content {
            Content::Nothing => None,
            Content::Undefined => Some(Value::Undefined),
            Content::Null => Some(Value::Null),
            Content::Bool(flag) => Some(Value::Bool(flag)),
            Content::Int(number) => Some(Value::Int(number)),
            Content::Builtin(number) => Some(Value::Builtin(number)),
            Content::Holder(number) => Some(Value::Holder(number)),
            Content::Ref(r) => Some(Value::Ref(r)),
        }
    }

    /// Gives it a value.
    pub fn put(&mut self, value: Value)
        ensures { self.new ≡ Some value }
    {
        *self = Binding::new(Some(value));
    }
}
