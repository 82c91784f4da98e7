ghost use Rattle.std.specs.Prelude.{◌≡◌, ◌⊎◌, ℤ, Option, false};
ghost use Rattle.ob_base.specs.Builtins.{is_builtin_name};
ghost use Rattle.ob_base.specs.Integers.{InRange};
ghost use Rattle.ob_hosts.specs.Names.{host_name, is_host_name};
ghost use Rattle.ob_hosts.specs.Value.{host_value};

use ob_base::Text;

/// What a host function computes (this project).
#[derive(Clone, Copy, Debug, PartialEq, Eq)]
pub enum HostCode {
    /// The truncated quotient.
    Quot,
    /// The floored quotient.
    FloorDiv,
    /// The floored remainder.
    Mod,
    /// The greater of the first number and 0.
    Clamp0,
}

/// The codes, each once.
const HOST_CODES: [HostCode; 4] = [
    HostCode::Quot,
    HostCode::FloorDiv,
    HostCode::Mod,
    HostCode::Clamp0,
];

impl HostCode {
    /// The name by which a notebook calls the host function (this project).
    #[tactic(auto, unfolding(crate::specs::Names::host_name))]
    pub fn name(self) -> &'static str
        ensures { result.now ≡ host_name self }
    {
        match self {
            HostCode::Quot => "quot",
            HostCode::FloorDiv => "floordiv",
            HostCode::Mod => "mod",
            HostCode::Clamp0 => "clamp0",
        }
    }
}

/// Whether a name is that of a host function.
pub fn is_host_name(name: &str) -> bool
    ensures { result ≡ is_host_name name.now }
{
    HOST_CODES.iter().any(|code| code.name() == name)
}

/// The closure of a host function, over two numbers; none where there is no value.
pub type HostCall = Box<dyn Fn(i64, i64) -> Option<i64>>;

/// A host function: its name, how many arguments it takes (1 or 2), and its closure beside the fact
/// that this may be called on all integers of the language and gives the value of the code.
#[derive(Drop)]
pub struct HostFn {
    pub name: Text,
    pub arity: u8,
    pub code: HostCode,
    call: HostCall,
    ghost callable: { (a b : ℤ) → InRange a → InRange b → HostCall.pre call a b },
    ghost answers: { (a b : ℤ) (r : Option ℤ) → InRange a → InRange b → HostCall.post call a b r → r ≡ host_value code a b },
}

impl HostFn {
    /// The host function of a closure.
    pub fn new(name: Text, arity: u8, code: HostCode, call: HostCall) -> HostFn
        requires arity { (arity ≡ 1) ⊎ (arity ≡ 2) }
        requires name { is_builtin_name name ≡ false }
        requires callable { (a b : ℤ) → InRange a → InRange b → HostCall.pre call a b }
        requires answers { (a b : ℤ) (r : Option ℤ) → InRange a → InRange b → HostCall.post call a b r → r ≡ host_value code a b }
        ensures name { result.name ≡ name }
        ensures arity { result.arity ≡ arity }
        ensures code { result.code ≡ code }
    {
        HostFn {
            name,
            arity,
            code,
            call,
        }
    }

    /// The value at two integers of the language; none where the code has none.
    pub fn call(&self, a: i64, b: i64) -> Option<i64>
        requires first { InRange a }
        requires second { InRange b }
        ensures { result ≡ host_value self.now.code a b }
    {
        (self.call)(a, b)
    }
}
