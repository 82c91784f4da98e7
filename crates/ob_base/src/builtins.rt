ghost use Rattle.std.specs.Prelude.{◌≡◌, bytes_eq};
ghost use Rattle.std.specs.List.{list_any};
ghost use Rattle.ob_base.specs.Builtins.{is_builtin_name};

/// The names of the builtins. A builtin's number is its place here, from 0; the functions of `Math`,
/// `Object` and `Array`, the methods and the host functions follow.
pub const BUILTIN_NAMES: [&str; 9] = [
    "Math",
    "Object",
    "Array",
    "String",
    "Error",
    "TypeError",
    "RangeError",
    "log",
    "invalidation",
];

/// Whether a name is one of the builtins'.
pub fn is_builtin_name(name: &str) -> bool
    ensures { result ≡ is_builtin_name name.now }
{
    is_among(&BUILTIN_NAMES, name)
}

/// Whether a name is one of these.
pub fn is_among(names: &[&str], name: &str) -> bool
    ensures { result ≡ list_any (λ n. bytes_eq n.now name.now) names.now }
{
    names.iter().any(|n| *n == name)
}
