//! The meaning of evaluation: what the trees of cells give, by recursion over them, and its laws.
#![tactic(auto)]

ghost use Rattle.ob_sem.specs.Laws.{StepsFall, ElementsRise, FixedStays, OwnRegionAlone, FreezingIsComputed, RunsKeepFixed};

/// However an evaluation ends, no more steps are left than before.
pub fn steps_fall()
    ensures { StepsFall }
{}

/// However an evaluation ends, its region has no fewer elements than before.
pub fn elements_rise()
    ensures { ElementsRise }
{}

/// However an evaluation ends, each item of any region that was frozen, or is of a kind that no call
/// writes, is what it was.
pub fn fixed_stays()
    ensures { FixedStays }
{}

/// Where all that an evaluation reaches outside its own region is frozen or never written, no other
/// region changes, however it ends.
pub fn own_region_alone()
    ensures { OwnRegionAlone }
{}

/// A store that has the frozen mark at exactly what a value reaches, and else is the one before, is the
/// store that freezing computes.
pub fn freezing_is_computed()
    ensures { FreezingIsComputed }
{}

/// At each segment of a run, the freezing of its outcome with it, an item of any region that is frozen,
/// or is of a kind that no call writes, stays so and keeps its body.
pub fn runs_keep_fixed()
    ensures { RunsKeepFixed }
{}
