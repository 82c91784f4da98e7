//! Laws of code, each a function without a body that does anything.
ghost use Rattle.ob_code.specs.Ends.{CallsComeToOne, RunsEndAtOne};
ghost use Rattle.ob_code.specs.Fits.{RulesSuffice};

/// A run of code has one end, whatever calls it makes.
pub fn runs_end_at_one()
    ensures { RunsEndAtOne }
{}

/// A call comes to one outcome, at each depth.
pub fn calls_come_to_one()
    ensures { CallsComeToOne }
{}

/// Code that keeps the rules is never stuck: it fits its shapes at the entry and after each step, so
/// it finds the next instruction, and the operands, locals, boxes, texts, functions and open parts
/// that this needs.
pub fn accepted_code_is_never_stuck()
    ensures { RulesSuffice }
{}
