ghost use Rattle.std.specs.Prelude.{◌≡◌, ◌^◌, ◌<◌, IfOk, MatchBool, Some, None, IsTrue, length};
ghost use Rattle.ob_code.specs.Rules as spec;
ghost use Rattle.ob_code.specs.Sites.{of_site};

use crate::leads::ways_of;
use crate::shapes::{is_opened_by, joined, keeps_open, shape_at};
use crate::site::Site;
use crate::{Op, Open, Shape, Way, Ways};
use ob_base::NoMemory;
use std::alloc::Global;

fn has_room(site: &Site<'_>, shape: Shape) -> bool
    ensures { result ≡ spec.has_room (of_site site.now) shape }
{
    shape.operands <= site.operands && shape.locals <= site.locals as usize
}

// Whether a way leads ahead to an instruction, in a shape for which there is room, inside what was
// opened by then, and with what that needs.
fn is_way(site: &Site<'_>, shapes: &[Option<Shape>], place: usize, way: Way) -> bool
    ensures { result ≡ spec.is_way (of_site site.now) place way shapes.now }
{
    place < way.place
        && way.place < shapes.len()
        && has_room(site, way.shape)
        && is_opened_by(place, way.shape.inside)
        && keeps_open(shapes, way.shape)
}

// Hands a shape on to a place ahead; false where it is no way, or where another way leads there in
// another shape.
fn hand(site: &Site<'_>, shapes: &mut [Option<Shape>], place: usize, way: Way) -> bool
    ensures { MatchBool result (spec.handed (of_site site.now) place way shapes.old ≡ Some shapes.new) (spec.handed (of_site site.now) place way shapes.old ≡ None) }
{
    if !is_way(site, shapes, place, way) {
        return false;
    }
    match joined(shape_at(shapes, way.place), way.shape) {
        Some(shape) => {
            shapes[way.place] = Some(shape);
            true
        }
        None => false,
    }
}

fn hand_all(site: &Site<'_>, shapes: &mut [Option<Shape>], place: usize, ways: Ways) -> bool
    ensures { MatchBool result (spec.all_handed (of_site site.now) place ways shapes.old ≡ Some shapes.new) (spec.all_handed (of_site site.now) place ways shapes.old ≡ None) }
{
    match ways {
        Ways::Nowhere => true,
        Ways::One(a) => hand(site, shapes, place, a),
        Ways::Two(a, b) => hand(site, shapes, place, a) && hand(site, shapes, place, b),
        Ways::Three(a, b, c) => {
            hand(site, shapes, place, a)
                && hand(site, shapes, place, b)
                && hand(site, shapes, place, c)
        }
    }
}

// Passes one instruction; false where it breaks the rules.
fn pass(site: &Site<'_>, shapes: &mut [Option<Shape>], place: usize, op: Op) -> bool
    requires { place < 2 ^ 63 }
    ensures { MatchBool result (spec.passed (of_site site.now) op place shapes.old ≡ Some shapes.new) (spec.passed (of_site site.now) op place shapes.old ≡ None) }
{
    let Some(shape) = shape_at(shapes, place) else {
        return true;
    };
    match ways_of(site, shapes, place, op, shape) {
        Some(ways) => hand_all(site, shapes, place, ways),
        None => false,
    }
}

// Walks over all instructions from the shapes at the entry on; the place of the first that breaks
// the rules.
fn walk(site: &Site<'_>, shapes: &mut [Option<Shape>]) -> Option<usize>
    ensures { result ≡ spec.break_of (spec.walk (of_site site.now) site.now.ops.now 0 shapes.old) }
{
    for (place, op) in site.ops.iter().enumerate() {
        if !pass(site, shapes, place, *op) {
            return Some(place);
        }
    }
    None
}

/// The place of the first instruction of a function that breaks the rules, if one does.
///
/// # Errors
/// `NoMemory` where an allocation is refused.
pub fn first_break(alloc: Global, site: &Site<'_>) -> Result<Option<usize>, NoMemory>
    ensures { IfOk result (λ place. place ≡ spec.break_of (spec.walk_function (of_site site.now))) }
{
    let mut shapes: Vec<Option<Shape>> = vec![in alloc; None; site.ops.len()]?;
    if site.ops.is_empty() {
        return Ok(Some(0));
    }
    shapes[0] = Some(Shape {
        operands: 0,
        locals: 0,
        boxes: site.boxes,
        inside: Open::Nothing,
    });
    Ok(walk(site, &mut shapes))
}
