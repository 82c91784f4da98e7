use ob_items::Value;

/// What a call of a function or method that is built in gives: its value, and the steps that it took besides the call and
/// one for each element that it made.
#[derive(Clone, Copy, Debug, PartialEq, Eq)]
pub struct Done {
    pub value: Value,
    pub steps: u64,
}
