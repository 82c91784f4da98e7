use crate::{CheckError, Checked, Chunk, Codes, Op, check_chunk};
use ob_base::{BinaryOp, CompareOp, List, NoMemory, UpdateOp};
use std::alloc::Global;
use std::test::Fail;

fn chunk_of(alloc: Global, ops: &[Op]) -> Result<Chunk, NoMemory> {
    Ok(Chunk {
        ops: List::from_slice(alloc, ops)?,
        texts: List::new(alloc),
        methods: List::new(alloc),
        functions: List::new(alloc),
        locals: 1,
        operands: 2,
        captures: List::new(alloc),
        invalidation: false,
    })
}

// A loop that counts a local up to ten, and gives it.
const COUNTS: [Op; 10] = [
    Op::Enter(0, 1),
    Op::Int(0),
    Op::InitLocal(0),
    Op::Keep(1, 0),
    Op::Loop(3, 2),
    Op::Body(1, 1, 0),
    Op::UpdateLocal(UpdateOp::Up, 0),
    Op::TurnWhileInt(CompareOp::Less, 0, 10, 1),
    Op::GetLocal(0),
    Op::Return,
];

fn accepted(alloc: Global, ops: &[Op]) -> Result<Option<Checked>, NoMemory> {
    Ok(check_chunk(alloc, chunk_of(alloc, ops)?).ok())
}

fn first_bad(alloc: Global, ops: &[Op]) -> Result<Option<(usize, usize)>, NoMemory> {
    match check_chunk(alloc, chunk_of(alloc, ops)?) {
        Err(CheckError::Bad(bad)) => Ok(Some((bad.function, bad.place))),
        _ => Ok(None),
    }
}

#[test]
fn a_loop_is_accepted(rt: HostRuntime) -> Result<(), Fail> {
    assert!(rt; accepted(rt.alloc(), &COUNTS)?.is_some());
    Ok(())
}

#[test]
fn the_first_instruction_that_misses_an_operand_is_named(rt: HostRuntime) -> Result<(), Fail> {
    let ops = [
        Op::Int(1),
        Op::Binary(BinaryOp::Add),
        Op::Binary(BinaryOp::Add),
        Op::Return,
    ];
    assert_eq!(rt; first_bad(rt.alloc(), &ops)?, Some((0, 1)));
    Ok(())
}

#[test]
fn code_is_kept_by_its_number(rt: HostRuntime) -> Result<(), Fail> {
    let alloc = rt.alloc();
    let mut prelude = Vec::new(alloc);
    for _ in 0..7 {
        if let Some(checked) = accepted(alloc, &COUNTS)? {
            prelude.push(checked)?;
        }
    }
    assert!(rt; prelude.len() == 7);
    let mut codes = Codes::new(alloc, List::from_vec(prelude))?;
    let checked = accepted(alloc, &[Op::Undefined, Op::Return])?;
    assert!(rt; checked.is_some());
    let number = codes.add(checked.unwrap())?;
    assert!(rt; codes.get(number).is_some());
    assert!(rt; codes.get(6).is_some());
    codes.remove(number);
    assert!(rt; codes.get(number).is_none());
    Ok(())
}
