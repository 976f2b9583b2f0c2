//! Worked examples, as theorems about the definitions that the contracts cite.
#![tactic(auto)]

ghost use Rattle.std.specs.List.{AllByRecursion};
ghost use Rattle.examples.specs.Claims.{Holds};
ghost use Rattle.examples.specs.PeakAndEnergy.{PeakIsNotEnergy};
ghost use Rattle.examples.specs.Worked.{examples};

/// On a board where one long move and two short ones lead to rest, the peak and the energy differ, and so do the moves chosen by them.
pub fn peak_is_not_energy()
    ensures { PeakIsNotEnergy }
{}

/// Every worked example comes out as it is listed: reports on sheets, rules on labels, sums of care, and a run.
pub fn worked_examples()
    ensures { AllByRecursion Holds examples }
{}
