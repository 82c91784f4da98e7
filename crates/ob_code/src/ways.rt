ghost use Rattle.std.specs.Prelude.{◌≡◌, ◌^◌, ◌<◌, ◌+◌, ◌&&◌, ◌==◌, nat_le, Some};
ghost use Rattle.ob_code.specs.Shapes as shapes_of;
ghost use Rattle.ob_code.specs.Sites.{of_site};
ghost use Rattle.ob_code.specs.Ways as spec;

use crate::shapes::{closed, covers, shape_at, with_inside, with_operands};
use crate::site::Site;
use crate::{Op, Open, Shape, Way, Ways};

pub fn if_so(holds: bool, ways: Ways) -> Option<Ways>
    ensures { result ≡ spec.if_so holds ways }
{
    if holds { Some(ways) } else { None }
}

fn to(place: usize, shape: Shape) -> Way
    ensures { result ≡ spec.to place shape }
{
    Way { place, shape }
}

pub fn next(place: usize, shape: Shape) -> Ways
    requires { place < 2 ^ 63 }
    ensures { result ≡ spec.next place shape }
{
    Ways::One(to(place + 1, shape))
}

// So much later than the next instruction.
fn later(place: usize, by: u32) -> usize
    requires { place < 2 ^ 63 }
    ensures { result ≡ place + 1 + by }
{
    place + 1 + by as usize
}

pub fn ahead(place: usize, by: u32, shape: Shape) -> Ways
    requires { place < 2 ^ 63 }
    ensures { result ≡ spec.ahead place by shape }
{
    Ways::One(to(later(place, by), shape))
}

pub fn fork(place: usize, by: u32, here: Shape, there: Shape) -> Ways
    requires { place < 2 ^ 63 }
    ensures { result ≡ spec.fork place by here there }
{
    Ways::Two(to(place + 1, here), to(later(place, by), there))
}

pub fn opened(place: usize, out: u32, again: u32, shape: Shape) -> Ways
    requires { place < 2 ^ 63 }
    ensures { result ≡ spec.opened place out again shape }
{
    let inside = with_inside(Open::In(place), shape);
    Ways::Three(
        to(place + 1, inside),
        to(later(place, out), shape),
        to(later(place, again), inside),
    )
}

pub fn less(n: u32, shape: Shape) -> Shape
    ensures { result ≡ spec.less n shape }
{
    with_operands(shape.operands.saturating_sub(n), shape)
}

pub fn is_empty(shape: Shape) -> bool
    ensures { result ≡ spec.is_empty shape }
{
    shape.operands == 0
}

fn is_loop(op: Op) -> bool
    ensures { result ≡ spec.is_loop op }
{
    matches!(op, Op::Loop(_, _))
}

fn is_over(op: Op) -> bool
    ensures { result ≡ spec.is_over op }
{
    matches!(op, Op::Over(_, _))
}

fn is_try(op: Op) -> bool
    ensures { result ≡ spec.is_try op }
{
    matches!(op, Op::Try(_))
}

fn is_last(op: Op) -> bool
    ensures { result ≡ spec.is_last op }
{
    matches!(op, Op::Last(_))
}

fn is_in_loop(ops: &[Op], inside: Open) -> bool
    ensures { result ≡ spec.is_in ops.now spec.is_loop inside }
{
    match inside {
        Open::In(place) => match ops.get(place) {
            Some(op) => is_loop(*op),
            None => false,
        },
        Open::Nothing | Open::After(_) => false,
    }
}

pub fn is_in_over(ops: &[Op], inside: Open) -> bool
    ensures { result ≡ spec.is_in ops.now spec.is_over inside }
{
    match inside {
        Open::In(place) => match ops.get(place) {
            Some(op) => is_over(*op),
            None => false,
        },
        Open::Nothing | Open::After(_) => false,
    }
}

pub fn is_in_try(ops: &[Op], inside: Open) -> bool
    ensures { result ≡ spec.is_in ops.now spec.is_try inside }
{
    match inside {
        Open::In(place) => match ops.get(place) {
            Some(op) => is_try(*op),
            None => false,
        },
        Open::Nothing | Open::After(_) => false,
    }
}

pub fn is_in_last(ops: &[Op], inside: Open) -> bool
    ensures { result ≡ spec.is_in ops.now spec.is_last inside }
{
    match inside {
        Open::In(place) => match ops.get(place) {
            Some(op) => is_last(*op),
            None => false,
        },
        Open::Nothing | Open::After(_) => false,
    }
}

pub fn is_after(inside: Open) -> bool
    ensures { result ≡ spec.is_after inside }
{
    match inside {
        Open::After(_) => true,
        Open::Nothing | Open::In(_) => false,
    }
}

pub fn is_nothing(inside: Open) -> bool
    ensures { result ≡ spec.is_nothing inside }
{
    match inside {
        Open::Nothing => true,
        Open::In(_) | Open::After(_) => false,
    }
}

// A jump back to a place that is known finds there what that place asks.
pub fn is_way_back(shapes: &[Option<Shape>], place: usize, by: u32, shape: Shape) -> bool
    ensures { result ≡ spec.is_way_back shapes.now place by shape }
{
    if place < by as usize {
        return false;
    }
    match shape_at(shapes, place - by as usize) {
        Some(known) => covers(shape, known),
        None => false,
    }
}

pub fn turn(
    site: &Site<'_>,
    shapes: &[Option<Shape>],
    place: usize,
    taken: u32,
    by: u32,
    shape: Shape,
) -> Option<Ways>
    requires { place < 2 ^ 63 }
    ensures { result ≡ spec.turn (of_site site.now) shapes.now place taken by shape }
{
    let left = less(taken, shape);
    let holds = taken <= shape.operands
        && is_in_loop(site.ops, shape.inside)
        && is_way_back(shapes, place, by, left);
    if_so(holds, next(place, closed(shapes, left)))
}
