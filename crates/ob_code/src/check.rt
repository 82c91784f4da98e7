ghost use Rattle.std.specs.Prelude.{◌≡◌, ◌+◌, IfOk, OnOk, IfErr, length};
ghost use Rattle.ob_code.specs.Code as code;
ghost use Rattle.ob_code.specs.Refused.{IsRefusedFor};
ghost use Rattle.ob_code.specs.Rules as rules_of;

use crate::site::Site;
use crate::walk::first_break;
use crate::{Checked, Chunk, Spot};
use ob_base::NoMemory;
use std::alloc::Global;

/// Why a chunk was not accepted.
#[derive(Drop)]
pub enum CheckError {
    /// An instruction breaks the rules of code.
    Bad(BadChunk),
    /// An allocation was refused.
    NoMemory,
}

/// A chunk that breaks the rules of code, and the first instruction that does.
#[derive(Drop)]
pub struct BadChunk {
    pub chunk: Chunk,
    /// The number of the function, where 0 is the text itself.
    pub function: usize,
    /// The place of the instruction in that function.
    pub place: usize,
}

// How many boxes a call must have, so that a function value can keep those at these places.
fn boxes_for(captures: &[u32]) -> usize
    ensures { result ≡ code.boxes_for captures.now }
{
    let mut most = 0usize;
    for place in captures {
        most = most.max(*place as usize + 1);
    }
    most
}

fn boxes_for_each(alloc: Global, functions: &[Chunk]) -> Result<Vec<usize>, NoMemory>
    ensures { IfOk result (λ asked. asked.items ≡ code.boxes_for_each functions.now) }
{
    let mut asked = Vec::new(alloc);
    for function in functions {
        asked.push(boxes_for(function.captures.as_slice()))?;
    }
    Ok(asked)
}

fn break_in(
    alloc: Global,
    asked: &[usize],
    boxes: usize,
    chunk: &Chunk,
) -> Result<Option<usize>, NoMemory>
    ensures { IfOk result (λ place. place ≡ rules_of.break_in asked.now boxes chunk.now) }
{
    let site = Site {
        ops: chunk.ops.as_slice(),
        texts: chunk.texts.as_slice(),
        methods: chunk.methods.as_slice(),
        locals: chunk.locals,
        operands: chunk.operands,
        boxes,
        asked,
    };
    first_break(alloc, &site)
}

fn break_in_inner(alloc: Global, asked: &[usize], chunk: &Chunk) -> Result<Option<usize>, NoMemory>
    ensures { IfOk result (λ place. place ≡ rules_of.break_in_inner asked.now chunk.now) }
{
    if chunk.functions.len() > 0 {
        return Ok(Some(0));
    }
    break_in(alloc, asked, chunk.captures.len(), chunk)
}

fn break_in_functions(
    alloc: Global,
    asked: &[usize],
    functions: &[Chunk],
) -> Result<Option<Spot>, NoMemory>
    ensures { IfOk result (λ spot. spot ≡ rules_of.break_in_functions asked.now 1 functions.now) }
{
    for (index, chunk) in functions.iter().enumerate() {
        if let Some(place) = break_in_inner(alloc, asked, chunk)? {
            return Ok(Some(Spot {
                function: index + 1,
                place,
            }));
        }
    }
    Ok(None)
}

fn first_spot(alloc: Global, chunk: &Chunk) -> Result<Option<Spot>, NoMemory>
    ensures { IfOk result (λ spot. spot ≡ rules_of.first_break chunk.now) }
{
    let functions = chunk.functions.as_slice();
    let asked = boxes_for_each(alloc, functions)?;
    match break_in(alloc, asked.as_slice(), 0, chunk)? {
        Some(place) => Ok(Some(Spot { function: 0, place })),
        None => break_in_functions(alloc, asked.as_slice(), functions),
    }
}

/// Accepts a chunk whose code keeps the rules of code, those of all its functions (this project).
///
/// # Errors
/// `Bad` with the chunk and with the first instruction that breaks the rules, by the number of its
/// function and its place there; `NoMemory` where an allocation is refused.
pub fn check_chunk(alloc: Global, chunk: Chunk) -> Result<Checked, CheckError>
    ensures accepted { IfOk result (λ checked. checked ≡ chunk) }
    ensures keeps { OnOk result (rules_of.KeepsRules chunk) }
    ensures refused { IfErr result (IsRefusedFor chunk) }
{
    match first_spot(alloc, &chunk) {
        Ok(None) => Ok(Checked::new(chunk)),
        Ok(Some(spot)) => Err(CheckError::Bad(BadChunk {
            chunk,
            function: spot.function,
            place: spot.place,
        })),
        Err(_) => Err(CheckError::NoMemory),
    }
}
