ghost use Rattle.std.specs.Prelude.{◌≡◌, ◌^◌, ◌<◌};
ghost use Rattle.ob_code.specs.Sites.{of_site};
ghost use Rattle.ob_code.specs.Ways as spec;

use crate::effect::effect_of;
use crate::shapes::{closed, with_boxes, with_inside, with_locals, with_operands};
use crate::site::Site;
use crate::there::is_there;
use crate::ways::{
    ahead, fork, if_so, is_after, is_empty, is_in_last, is_in_over, is_in_try, is_nothing,
    is_way_back, less, next, opened, turn,
};
use crate::{Effect, Op, Open, Shape, Ways};

// The instructions that make, cut and keep scopes.
fn scope_ways(place: usize, op: Op, shape: Shape) -> Option<Ways>
    requires { place < 2 ^ 63 }
    ensures { result ≡ spec.scope_ways place op shape }
{
    match op {
        Op::Arguments(count, more) => if_so(
            is_empty(shape) && is_nothing(shape.inside),
            next(place, with_locals(count as usize + more as usize, shape)),
        ),
        Op::Enter(size, more) => if_so(
            shape.operands <= 1 && size as usize <= shape.locals,
            next(place, with_locals(size as usize + more as usize, shape)),
        ),
        Op::Boxes(kept, more) => if_so(
            kept as usize <= shape.boxes,
            next(place, with_boxes(kept as usize + more as usize, shape)),
        ),
        Op::Copy(start, count) => if_so(
            start as usize + count as usize <= shape.boxes,
            next(place, with_boxes(start as usize + count as usize, shape)),
        ),
        Op::Keep(size, kept) => if_so(
            size as usize <= shape.locals && kept as usize <= shape.boxes,
            next(
                place,
                with_locals(size as usize, with_boxes(kept as usize, shape)),
            ),
        ),
        _ => None,
    }
}

// The instructions that open and close what others stand in.
fn open_ways(
    site: &Site<'_>,
    shapes: &[Option<Shape>],
    place: usize,
    op: Op,
    shape: Shape,
) -> Option<Ways>
    requires { place < 2 ^ 63 }
    ensures { result ≡ spec.open_ways (of_site site.now) shapes.now place op shape }
{
    match op {
        Op::Loop(out, again) => if_so(is_empty(shape), opened(place, out, again, shape)),
        Op::Over(out, again) => if_so(
            shape.operands == 1,
            opened(place, out, again, less(1, shape)),
        ),
        Op::Body(by, size, kept) => if_so(
            is_empty(shape),
            fork(
                place,
                by,
                with_locals(size as usize, with_boxes(kept as usize, shape)),
                shape,
            ),
        ),
        Op::Each => if_so(
            is_empty(shape) && is_in_over(site.ops, shape.inside),
            next(place, with_operands(1, shape)),
        ),
        Op::Try(by) => if_so(
            is_empty(shape),
            fork(
                place,
                by,
                with_inside(Open::In(place), shape),
                with_operands(1, shape),
            ),
        ),
        Op::EndTry(by) => if_so(
            is_empty(shape) && is_in_try(site.ops, shape.inside),
            ahead(place, by, closed(shapes, shape)),
        ),
        Op::Last(by) => if_so(
            is_empty(shape),
            fork(
                place,
                by,
                with_inside(Open::In(place), shape),
                with_inside(Open::After(place), shape),
            ),
        ),
        Op::Finish => if_so(
            is_empty(shape) && is_in_last(site.ops, shape.inside),
            Ways::Nowhere,
        ),
        Op::EndLast => if_so(
            is_empty(shape) && is_after(shape.inside),
            next(place, closed(shapes, shape)),
        ),
        Op::Begin => if_so(
            is_empty(shape) && is_nothing(shape.inside),
            next(place, with_operands(1, shape)),
        ),
        Op::Yield => if_so(shape.operands == 1, next(place, shape)),
        _ => scope_ways(place, op, shape),
    }
}

// The jumps.
fn jump_ways(
    site: &Site<'_>,
    shapes: &[Option<Shape>],
    place: usize,
    op: Op,
    shape: Shape,
) -> Option<Ways>
    requires { place < 2 ^ 63 }
    ensures { result ≡ spec.jump_ways (of_site site.now) shapes.now place op shape }
{
    match op {
        Op::Constant | Op::Break | Op::Continue => Some(Ways::Nowhere),
        Op::Return | Op::Throw => if_so(1 <= shape.operands, Ways::Nowhere),
        Op::Logic(_, by) => if_so(1 <= shape.operands, fork(place, by, less(1, shape), shape)),
        Op::Skip(by) => Some(ahead(place, by, shape)),
        Op::SkipIfFalse(by) | Op::SkipUnlessInt(_, _, by) => if_so(
            1 <= shape.operands,
            fork(place, by, less(1, shape), less(1, shape)),
        ),
        Op::SkipUnless(_, by) => if_so(
            2 <= shape.operands,
            fork(place, by, less(2, shape), less(2, shape)),
        ),
        Op::Turn(by) => if_so(is_way_back(shapes, place, by, shape), Ways::Nowhere),
        Op::TurnIf(by) => turn(site, shapes, place, 1, by, shape),
        Op::TurnWhile(_, by) => turn(site, shapes, place, 2, by, shape),
        Op::TurnWhileInt(_, _, _, by) | Op::TurnWhileLocal(_, _, _, by) => {
            turn(site, shapes, place, 0, by, shape)
        }
        _ => open_ways(site, shapes, place, op, shape),
    }
}

fn effect_ways(site: &Site<'_>, place: usize, effect: Effect, shape: Shape) -> Option<Ways>
    requires { place < 2 ^ 63 }
    ensures { result ≡ spec.effect_ways (of_site site.now) place effect shape }
{
    let found = shape.operands as usize;
    if found < effect.taken {
        return None;
    }
    let after = found - effect.taken + effect.given as usize;
    if after > site.operands as usize {
        return None;
    }
    Some(next(place, with_operands(after as u32, shape)))
}

/// Where an instruction leads in a shape that a call has there; none where it breaks the rules.
pub fn ways_of(
    site: &Site<'_>,
    shapes: &[Option<Shape>],
    place: usize,
    op: Op,
    shape: Shape,
) -> Option<Ways>
    requires { place < 2 ^ 63 }
    ensures { result ≡ spec.ways_of (of_site site.now) shapes.now place op shape }
{
    if !is_there(site, shape, op) {
        return None;
    }
    match effect_of(op) {
        Some(effect) => effect_ways(site, place, effect, shape),
        None => jump_ways(site, shapes, place, op, shape),
    }
}
