ghost use Rattle.std.specs.Prelude.{◌≡◌};
ghost use Rattle.ob_items.specs.Bodies.{text_of};
ghost use Rattle.ob_ops.specs.TypeNames.{text_of_type};
ghost use Rattle.ob_values.specs.Operators.{typeof_value};

use ob_values::{Body, Regions, Value};

/// The types that `typeof` tells apart.
#[derive(Clone, Copy, Debug, PartialEq, Eq)]
pub enum TypeName {
    Undefined,
    Object,
    Boolean,
    Number,
    Text,
    Function,
}

impl TypeName {
    /// The text that `typeof` gives, in ASCII (ECMA-262, "The typeof Operator").
    pub fn text(self) -> &'static str
        ensures { result.now ≡ text_of_type self }
    {
        match self {
            TypeName::Undefined => "undefined",
            TypeName::Object => "object",
            TypeName::Boolean => "boolean",
            TypeName::Number => "number",
            TypeName::Text => "string",
            TypeName::Function => "function",
        }
    }
}

/// The type of a value: an array, an error, a generator object, an invalidation object, null, `Math`,
/// `Object` and `Array` are objects, the other builtins functions. It takes no memory.
pub fn type_of(regions: &Regions, a: Value) -> TypeName
    ensures { text_of_type result ≡ typeof_value regions.now a }
{
    match a {
        Value::Undefined | Value::Holder(_) => TypeName::Undefined,
        Value::Null => TypeName::Object,
        Value::Bool(_) => TypeName::Boolean,
        Value::Int(_) => TypeName::Number,
        Value::Builtin(number) => {
            if number < 3 || number == 8 {
                TypeName::Object
            } else {
                TypeName::Function
            }
        }
        Value::Ref(r) => match regions.find(r) {
            Some(body) => match body {
                Body::Text(_) => TypeName::Text,
                Body::Closure(_) => TypeName::Function,
                _ => TypeName::Object,
            },
            None => TypeName::Undefined,
        },
    }
}
