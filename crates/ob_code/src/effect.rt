ghost use Rattle.std.specs.Prelude.{◌≡◌};
ghost use Rattle.ob_code.specs.Effects.{effect_of, takes_and_gives};

use crate::Op;

/// How many operands an instruction takes, and how many it gives.
#[derive(Clone, Copy, Debug, PartialEq, Eq)]
pub struct Effect {
    pub taken: usize,
    pub given: u32,
}

fn some_effect(taken: usize, given: u32) -> Option<Effect>
    ensures { result ≡ takes_and_gives taken given }
{
    Some(Effect { taken, given })
}

/// The operands that an instruction takes and gives, if it goes on at the next one and changes the
/// operands alone.
pub fn effect_of(op: Op) -> Option<Effect>
    ensures { result ≡ effect_of op }
{
    match op {
        Op::Undefined
        | Op::Null
        | Op::Bool(_)
        | Op::Int(_)
        | Op::Builtin(_)
        | Op::Text(_)
        | Op::GetLocal(_)
        | Op::GetBox(_)
        | Op::Argument(_)
        | Op::Input(_)
        | Op::Object
        | Op::Closure(_) => some_effect(0, 1),
        Op::SetLocal(_)
        | Op::SetBox(_)
        | Op::Unary(_)
        | Op::OneMore(_)
        | Op::Member(_)
        | Op::Key
        | Op::BinaryInt(_, _)
        | Op::BinaryLocal(_, _)
        | Op::CompareInt(_, _)
        | Op::CompareLocal(_, _)
        | Op::Length => some_effect(1, 1),
        Op::InitLocal(_) | Op::InitBox(_) | Op::Drop | Op::StoreLocal(_) => some_effect(1, 0),
        Op::Binary(_) | Op::Compare(_) | Op::Nip | Op::Index | Op::SetMember(_) | Op::SetProp(_) =>
            some_effect(2, 1),
        Op::Dup | Op::Method(_) => some_effect(1, 2),
        Op::DupTwo => some_effect(2, 4),
        Op::Tuck => some_effect(2, 3),
        Op::TuckTwo => some_effect(3, 4),
        Op::NipTwo | Op::SetIndex | Op::SetKey => some_effect(3, 1),
        Op::Call(count) => some_effect(count as usize + 2, 1),
        Op::New(count) => some_effect(count as usize + 1, 1),
        Op::Array(count) => some_effect(count as usize, 1),
        Op::Change(_) => some_effect(2, 0),
        Op::Step | Op::UpdateLocal(_, _) => some_effect(0, 0),
        Op::Constant
        | Op::Logic(_, _)
        | Op::Arguments(_, _)
        | Op::Enter(_, _)
        | Op::Boxes(_, _)
        | Op::Copy(_, _)
        | Op::Keep(_, _) => None,
        Op::SkipIfFalse(_)
        | Op::Skip(_)
        | Op::Loop(_, _)
        | Op::Body(_, _, _)
        | Op::TurnIf(_)
        | Op::Turn(_)
        | Op::Break
        | Op::Continue
        | Op::Return
        | Op::Throw => None,
        Op::Try(_)
        | Op::EndTry(_)
        | Op::Last(_)
        | Op::Finish
        | Op::EndLast
        | Op::Over(_, _)
        | Op::Each
        | Op::Begin
        | Op::Yield => None,
        Op::SkipUnless(_, _)
        | Op::SkipUnlessInt(_, _, _)
        | Op::TurnWhile(_, _)
        | Op::TurnWhileInt(_, _, _, _)
        | Op::TurnWhileLocal(_, _, _, _) => None,
    }
}
