//! What holds of the definitions, whatever the language: what a tick has to evaluate, and what not.

ghost use Rattle.std.specs.Prelude.{◌≡◌, Bool, true, false, None};
ghost use Rattle.ob_base.specs.Labels.{Label, same_label};
ghost use Rattle.ob_inputs.specs.Same.{is_in};
ghost use Rattle.ob_worlds.specs.Reader.{Reader};
ghost use Rattle.ob_worlds.specs.Language.{Language, IsLanguage};
ghost use Rattle.ob_worlds.specs.World.{World};
ghost use Rattle.ob_worlds.specs.Modules.{modules_of, have_own_serials};
ghost use Rattle.ob_worlds.specs.Nets.{labels, live};
ghost use Rattle.ob_worlds.specs.Outcomes.{outcome};
ghost use Rattle.ob_worlds.specs.Settled.{Settled, Now, segments_at};
ghost use Rattle.ob_worlds.specs.Rows.{row};
ghost use Rattle.ob_worlds.specs.Ticks.{settled_after};
ghost use Rattle.ob_worlds.specs.Marks.{IsMarked, IsStill};
ghost use Rattle.ob_worlds.specs.Since.{IsNet, Since, Running};
ghost use Rattle.ob_worlds.specs.Worlds.{net_of};
ghost use Rattle.ob_worlds.specs.Edits.{whole_fault};

/// A variable that hasn't moved at a tick has the outcome that it had by fresh evaluation after the
/// last tick: nothing has to be evaluated for it.
pub fn unmoved_variables_keep_their_outcomes<V, R>()
    ensures { (E : Language V R) → IsLanguage E → (S : Settled) (W : Now) → IsNet W.net → Since S W → (l : Label) → is_in same_label l (labels W.net) ≡ true
        → (row E S W l).moved ≡ false → (row E S W l).outcome ≡ outcome E S.net (segments_at S) l }
{}

/// What a tick computes for a live variable, from the rows of its inputs, is its outcome by fresh
/// evaluation in what the tick settles.
pub fn rows_have_fresh_outcomes<V, R>()
    ensures { (E : Language V R) (S : Settled) (W : Now) → IsNet W.net → (l : Label) → is_in same_label l (labels W.net) ≡ true → live W.net l ≡ true
        → (row E S W l).outcome ≡ outcome E (settled_after E S W).net (segments_at (settled_after E S W)) l }
{}

/// A tick leaves current runs only of variables that aren't circular and no duplicates, and all of
/// whose inputs have values.
pub fn current_runs_have_their_inputs<V, R>()
    ensures { (E : Language V R) → IsLanguage E → (S : Settled) (W : Now) → IsNet W.net → Since S W → Running E S → Running E (settled_after E S W) }
{}

/// A tick may leave alone what isn't marked, whatever the marks, if each variable that may move by
/// itself is marked, and each that reads a marked one.
pub fn unmarked_variables_are_still<V, R>()
    ensures { (E : Language V R) (S : Settled) (W : Now) (marked : Label → Bool) → IsMarked E S W marked → (l : Label) → marked l ≡ false → IsStill E S W l }
{}

/// In notebooks that stand together, each with cells of serials of their own, what is an input of a
/// variable is a variable, and so is what is observed.
#[tactic(auto, using(crate::proofs::ApartLaws::whole_net))]
pub fn whole_notebooks_make_a_net()
    ensures { (E : Reader) (W : World) → have_own_serials (modules_of E W) ≡ true → whole_fault (modules_of E W) ≡ None → IsNet (net_of E W) }
{}
