ghost use Rattle.std.specs.Prelude.{◌≡◌, ◌&&◌, nat_le, nat_eq};
ghost use Rattle.ob_code.specs.Shapes as spec;
ghost use Rattle.ob_code.specs.Ways.{closed};

use crate::{Open, Shape};

/// The shape at a place, if a way leads there.
pub fn shape_at(shapes: &[Option<Shape>], place: usize) -> Option<Shape>
    ensures { result ≡ spec.shape_at shapes.now place }
{
    match shapes.get(place) {
        Some(shape) => *shape,
        None => None,
    }
}

pub fn with_operands(operands: u32, shape: Shape) -> Shape
    ensures { result ≡ spec.with_operands operands shape }
{
    Shape { operands, ..shape }
}

pub fn with_locals(locals: usize, shape: Shape) -> Shape
    ensures { result ≡ spec.with_locals locals shape }
{
    Shape { locals, ..shape }
}

pub fn with_boxes(boxes: usize, shape: Shape) -> Shape
    ensures { result ≡ spec.with_boxes boxes shape }
{
    Shape { boxes, ..shape }
}

pub fn with_inside(inside: Open, shape: Shape) -> Shape
    ensures { result ≡ spec.with_inside inside shape }
{
    Shape { inside, ..shape }
}

fn same_open(a: Open, b: Open) -> bool
    ensures { result ≡ spec.same_open a b }
{
    match (a, b) {
        (Open::Nothing, Open::Nothing) => true,
        (Open::In(p), Open::In(q)) => p == q,
        (Open::After(p), Open::After(q)) => p == q,
        (Open::Nothing, Open::In(_))
        | (Open::Nothing, Open::After(_))
        | (Open::In(_), Open::Nothing)
        | (Open::In(_), Open::After(_))
        | (Open::After(_), Open::Nothing)
        | (Open::After(_), Open::In(_)) => false,
    }
}

fn agree(a: Shape, b: Shape) -> bool
    ensures { result ≡ spec.agree a b }
{
    a.operands == b.operands && same_open(a.inside, b.inside)
}

/// What a call has at a place, whichever of two ways it came; none where they do not agree.
pub fn joined(known: Option<Shape>, other: Shape) -> Option<Shape>
    ensures { result ≡ spec.joined known other }
{
    match known {
        None => Some(other),
        Some(shape) => {
            if !agree(shape, other) {
                return None;
            }
            Some(Shape {
                operands: other.operands,
                locals: shape.locals.min(other.locals),
                boxes: shape.boxes.min(other.boxes),
                inside: other.inside,
            })
        }
    }
}

/// Whether a call of one shape has all that another one has.
pub fn covers(shape: Shape, known: Shape) -> bool
    ensures { result ≡ spec.covers shape known }
{
    agree(shape, known) && known.locals <= shape.locals && known.boxes <= shape.boxes
}

// The shape where this was opened.
fn opener(shapes: &[Option<Shape>], inside: Open) -> Option<Shape>
    ensures { result ≡ spec.opener shapes.now inside }
{
    match inside {
        Open::Nothing => None,
        Open::In(place) | Open::After(place) => shape_at(shapes, place),
    }
}

fn outside(shapes: &[Option<Shape>], inside: Open) -> Open
    ensures { result ≡ spec.outside shapes.now inside }
{
    match opener(shapes, inside) {
        Some(shape) => shape.inside,
        None => Open::Nothing,
    }
}

/// The shape where what is open is closed.
pub fn closed(shapes: &[Option<Shape>], shape: Shape) -> Shape
    ensures { result ≡ closed shapes.now shape }
{
    with_inside(outside(shapes, shape.inside), shape)
}

// How many locals what is open needs.
fn locals_kept(shapes: &[Option<Shape>], inside: Open) -> usize
    ensures { result ≡ spec.locals_kept shapes.now inside }
{
    match opener(shapes, inside) {
        Some(shape) => shape.locals,
        None => 0,
    }
}

// How many boxes what is open needs.
fn boxes_kept(shapes: &[Option<Shape>], inside: Open) -> usize
    ensures { result ≡ spec.boxes_kept shapes.now inside }
{
    match opener(shapes, inside) {
        Some(shape) => shape.boxes,
        None => 0,
    }
}

/// Whether a call of a shape has what is open needs.
pub fn keeps_open(shapes: &[Option<Shape>], shape: Shape) -> bool
    ensures { result ≡ spec.keeps_open shapes.now shape }
{
    locals_kept(shapes, shape.inside) <= shape.locals
        && boxes_kept(shapes, shape.inside) <= shape.boxes
}

/// Whether an instruction at a place, or one before it, opened this.
pub fn is_opened_by(place: usize, inside: Open) -> bool
    ensures { result ≡ spec.is_opened_by place inside }
{
    match inside {
        Open::Nothing => true,
        Open::In(opener) | Open::After(opener) => opener <= place,
    }
}
