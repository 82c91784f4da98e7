use ob_base::{BinaryOp, ChangeOp, CompareOp, LogicOp, UnaryOp, UpdateOp};

/// An instruction (this project).
///
/// It works on the operands of the running call, its locals, its boxes and the entries of what is
/// open in it. A number that an instruction carries is a place, counted from 0, or a count. A jump
/// ahead counts from the next instruction on; a jump back counts from the instruction itself, and
/// takes a step.
#[derive(Clone, Copy, Debug, PartialEq, Eq)]
pub enum Op {
    // ---- values
    Undefined,
    Null,
    Bool(bool),
    Int(i64),
    /// A builtin, by its number among the nine names.
    Builtin(u16),
    /// The text at a place of the function's texts.
    Text(u32),

    // ---- bindings
    /// Pushes the value of a local, which throws before its declaration has run.
    GetLocal(u32),
    /// Pushes what a box holds, which throws before the declaration has run.
    GetBox(u32),
    /// Assigns the top to a local, and keeps it.
    SetLocal(u32),
    /// Assigns the top to a box, and keeps it.
    SetBox(u32),
    /// Pops the first value of a local.
    InitLocal(u32),
    /// Pops the first value of a box.
    InitBox(u32),
    /// Throws: a constant, an input or a function's own name is assigned.
    Constant,
    /// Pushes an argument of the call; a missing one is undefined.
    Argument(u32),
    /// Pushes an input.
    Input(u32),

    // ---- operators
    Unary(UnaryOp),
    Binary(BinaryOp),
    Compare(CompareOp),
    /// Pops the top if the second operand is needed, and else goes on so much later.
    Logic(LogicOp, u32),
    /// Makes one more or one less of the top.
    OneMore(UpdateOp),

    // ---- operands
    Drop,
    Dup,
    DupTwo,
    /// Puts the top also below the operand beneath it.
    Tuck,
    /// Puts the top also below the two operands beneath it.
    TuckTwo,
    /// Drops the operand beneath the top.
    Nip,
    /// Drops the two operands beneath the top.
    NipTwo,

    // ---- properties
    /// The property of the name at a place of the texts.
    Member(u32),
    /// The property of the key on top.
    Index,
    /// Sets the property of a name to the top, and keeps the value alone.
    SetMember(u32),
    /// Sets the property of the key below the top to the top, and keeps the value alone.
    SetIndex,

    // ---- calls
    /// Puts the receiver and the function of a call in the place of the receiver; the name and the
    /// numbers of its methods stand at a place of the function's methods.
    Method(u32),
    /// Calls with so many arguments, which stand above the receiver and the function.
    Call(u32),
    /// Makes an error by `new` with so many arguments, which stand above the callee.
    New(u32),

    // ---- arrays, objects, functions, changes
    /// An array of so many operands.
    Array(u32),
    /// An object without properties.
    Object,
    /// Sets the property of a name of the object below the top, and keeps the object.
    SetProp(u32),
    /// Tests that the top is a key.
    Key,
    /// Sets the property of the key below the top, of the object beneath, and keeps the object.
    SetKey,
    /// A function value of the function with this number.
    Closure(u32),
    /// Pops the holder and the value of a change of a mutable.
    Change(ChangeOp),

    // ---- scopes
    /// Makes the first arguments the locals, so many of them, and adds so many empty ones.
    Arguments(u32, u32),
    /// Cuts the locals to a number, and adds so many empty ones; at most one operand is there.
    Enter(u32, u32),
    /// Cuts the boxes to a number, and adds so many new ones, which are empty.
    Boxes(u32, u32),
    /// Cuts the boxes to those before a place and so many from it on, and puts new boxes with the
    /// same values in the place of these.
    Copy(u32, u32),
    /// Does nothing: only so many locals and so many boxes are used from here on.
    Keep(u32, u32),

    // ---- ways
    SkipIfFalse(u32),
    Skip(u32),
    /// Takes a step.
    Step,
    /// Opens a loop: where `break` and where `continue` go on.
    Loop(u32, u32),
    /// Skips the body of a loop, which begins at the next instruction, is entered by a jump back
    /// alone, and finds so many locals and so many boxes.
    Body(u32, u32, u32),
    /// Pops the test of a loop: goes back if it is truthy, and else closes the loop.
    TurnIf(u32),
    /// Goes back.
    Turn(u32),
    Break,
    Continue,
    Return,
    Throw,
    /// Opens a part that is watched: where its handler stands.
    Try(u32),
    /// Closes a part that is watched, and goes on so much later.
    EndTry(u32),
    /// Opens a part that another follows however it ends: where that stands.
    Last(u32),
    /// Ends such a part in the ordinary way.
    Finish,
    /// Ends the part that follows: how the first one ended is how both end.
    EndLast,
    /// Pops what a loop goes over and opens the loop: where `break` and where `continue` go on.
    Over(u32, u32),
    /// Pushes the next element of what the loop goes over, or closes the loop and goes on where
    /// `break` does.
    Each,
    /// Gives a generator object that goes on at the next instruction.
    Begin,
    /// Gives the top to who pulled; the value that is sent stands in its place.
    Yield,

    // ---- several of the above in one
    /// `Int`, `Binary`.
    BinaryInt(BinaryOp, i32),
    /// `GetLocal`, `Binary`.
    BinaryLocal(BinaryOp, u32),
    /// `Int`, `Compare`.
    CompareInt(CompareOp, i32),
    /// `GetLocal`, `Compare`.
    CompareLocal(CompareOp, u32),
    /// `Compare`, `SkipIfFalse`.
    SkipUnless(CompareOp, u32),
    /// `Int`, `Compare`, `SkipIfFalse`.
    SkipUnlessInt(CompareOp, i32, u32),
    /// `Compare`, `TurnIf`.
    TurnWhile(CompareOp, u32),
    /// `GetLocal`, `Int`, `Compare`, `TurnIf`.
    TurnWhileInt(CompareOp, u16, i32, u32),
    /// `GetLocal`, `GetLocal`, `Compare`, `TurnIf`.
    TurnWhileLocal(CompareOp, u16, u16, u32),
    /// `GetLocal`, `OneMore`, `SetLocal`, `Drop`.
    UpdateLocal(UpdateOp, u32),
    /// `SetLocal`, `Drop`.
    StoreLocal(u32),
    /// `Member` of `length`.
    Length,
}

const _: () = prove!(size_of::<Op>() == 16);
