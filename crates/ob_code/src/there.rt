ghost use Rattle.std.specs.Prelude.{◌≡◌, ◌&&◌, nat_lt};
ghost use Rattle.ob_base.specs.Integers.{is_in_range};
ghost use Rattle.ob_code.specs.Sites.{of_site};
ghost use Rattle.ob_code.specs.There.{is_there, is_text, is_function, is_methods};

use crate::site::Site;
use crate::{Op, Shape};
use ob_base::{MAX_INTEGER, MAX_TEXT_UNITS, Units};

// A text of at most 65,536 units stands at the place.
fn is_text(texts: &[Units], place: u32) -> bool
    ensures { result ≡ is_text texts.now place }
{
    match texts.get(place as usize) {
        Some(text) => text.as_slice().len() <= MAX_TEXT_UNITS,
        None => false,
    }
}

fn is_methods(site: &Site<'_>, place: u32) -> bool
    ensures { result ≡ is_methods (of_site site.now) place }
{
    match site.methods.get(place as usize) {
        Some(methods) => is_text(site.texts, methods.name),
        None => false,
    }
}

// A function of this number is there, and asks for so many boxes at most.
fn is_function(asked: &[usize], boxes: usize, number: u32) -> bool
    ensures { result ≡ is_function asked.now boxes number }
{
    if number == 0 {
        return false;
    }
    match asked.get(number as usize - 1) {
        Some(count) => *count <= boxes,
        None => false,
    }
}

fn is_in_range(n: i64) -> bool
    ensures { result ≡ is_in_range n }
{
    -MAX_INTEGER <= n && n <= MAX_INTEGER
}

/// Whether all that an instruction names is there: a local, a box, a text, a method, a function.
pub fn is_there(site: &Site<'_>, shape: Shape, op: Op) -> bool
    ensures { result ≡ is_there (of_site site.now) shape op }
{
    match op {
        Op::Int(n) => is_in_range(n),
        Op::Builtin(n) => n < 9,
        Op::GetLocal(i)
        | Op::SetLocal(i)
        | Op::InitLocal(i)
        | Op::BinaryLocal(_, i)
        | Op::CompareLocal(_, i)
        | Op::UpdateLocal(_, i)
        | Op::StoreLocal(i) => (i as usize) < shape.locals,
        Op::TurnWhileInt(_, i, _, _) => (i as usize) < shape.locals,
        Op::TurnWhileLocal(_, i, j, _) => {
            (i as usize) < shape.locals && (j as usize) < shape.locals
        }
        Op::GetBox(i) | Op::SetBox(i) | Op::InitBox(i) => (i as usize) < shape.boxes,
        Op::Text(t) | Op::Member(t) | Op::SetMember(t) | Op::SetProp(t) => is_text(site.texts, t),
        Op::Method(m) => is_methods(site, m),
        Op::Closure(f) => is_function(site.asked, shape.boxes, f),
        _ => true,
    }
}
