ghost use Rattle.std.specs.Prelude.{◌≡◌, IfOk};
ghost use Rattle.ob_items.specs.Captured.{captured};

use crate::{CodeKey, Ref};
use ob_base::{List, NoMemory};
use sqlite_items::Boxed;
use std::alloc::Global;
use std::marker::Model;
use std::rc::Rc;
use std::slice;

/// What the function values that one function text gives in a run have in common.
#[derive(Clone, Copy, Debug, PartialEq, Eq)]
pub struct SharedFunction {
    pub code: CodeKey,
    /// The array of the inputs.
    pub inputs: Ref,
    /// The invalidation object, where the text refers to that.
    pub invalidation: Option<Ref>,
}

/// A function value: what it shares with others of its text, and the boxes that are its own. Contracts
/// see a `Closure`.
#[derive(Drop)]
pub struct FunctionValue {
    shared: Rc<SharedFunction>,
    boxes: CapturedBoxes,
}

// The boxes of captured bindings, by how many there are: for none nothing is allocated, and for one no
// list.
#[derive(Drop)]
enum CapturedBoxes {
    Empty,
    One(Box<Ref>),
    Several(Boxed<List<Ref>>),
}

// So an item with a function value is no larger than others.
const _: () = prove!(size_of::<FunctionValue>() == 24);

impl Model for FunctionValue {
    ghost use Rattle.ob_items.specs.Captured.{captured};
    ghost use Rattle.ob_items.specs.declared.item.Closure.{Closure as TheClosure};

    ghost Value = { TheClosure };

    ghost view = { λ f. record { code = f.shared.value.code; boxes = captured f.boxes; inputs = f.shared.value.inputs; invalidation = f.shared.value.invalidation } };
}

impl FunctionValue {
    /// The function value with these boxes of captured bindings.
    ///
    /// # Errors
    /// `NoMemory` where an allocation is refused. It asks for none where there is no box.
    pub fn new(
        alloc: Global,
        shared: Rc<SharedFunction>,
        boxes: &[Ref],
    ) -> Result<FunctionValue, NoMemory>
        ensures { IfOk result (λ f. f ≡ record { code = shared.value.code; boxes = boxes.now; inputs = shared.value.inputs; invalidation = shared.value.invalidation }) }
    {
        Ok(FunctionValue {
            shared,
            boxes: CapturedBoxes::new(alloc, boxes)?,
        })
    }

    /// Its code.
    pub fn code(&self) -> CodeKey
        ensures { result ≡ self.now.code }
    {
        self.shared.code
    }

    /// The boxes of the captured bindings that its text refers to.
    pub fn boxes(&self) -> &[Ref]
        ensures { result.now ≡ self.now.boxes }
    {
        match &self.boxes {
            CapturedBoxes::Empty => &[],
            CapturedBoxes::One(only) => slice::from_ref(&**only),
            CapturedBoxes::Several(boxes) => boxes.get().as_slice(),
        }
    }

    /// The array of the inputs.
    pub fn inputs(&self) -> Ref
        ensures { result ≡ self.now.inputs }
    {
        self.shared.inputs
    }

    /// The invalidation object, where its text refers to that.
    pub fn invalidation(&self) -> Option<Ref>
        ensures { result ≡ self.now.invalidation }
    {
        self.shared.invalidation
    }
}

impl CapturedBoxes {
    fn new(alloc: Global, boxes: &[Ref]) -> Result<CapturedBoxes, NoMemory>
        ensures { IfOk result (λ kept. captured kept ≡ boxes.now) }
    {
        Ok(match boxes {
            [] => CapturedBoxes::Empty,
            [only] => CapturedBoxes::One(Box::new(alloc, *only)?),
            _ => CapturedBoxes::Several(Boxed::new(alloc, List::from_slice(alloc, boxes)?)?),
        })
    }
}
