//! Each function stands for the theorem that its contract states.
ghost use Rattle.runs.specs.Example.{Reached};
ghost use Rattle.runs.specs.Promise.{Promise, PromiseKept, Withdrawal, FiguresFall, RunsStay};

/// No cell is longer on its way than its stream's total, and no port holds more cells than its need.
pub fn promise_holds<K>()
    ensures { Promise K }
{}

/// Where a table passes, no cell misses its deadline, and no port lacks a place.
pub fn deadlines_hold<K>()
    ensures { PromiseKept K }
{}

/// A table that passes still does without one of its streams.
pub fn withdrawal_passes<K>()
    ensures { Withdrawal K }
{}

/// Without one of its streams a table still has its figures, and none of them is greater.
pub fn figures_fall<K>()
    ensures { FiguresFall K }
{}

/// A run of the table without one of its streams is a run of the table.
pub fn runs_stay<K>()
    ensures { RunsStay K }
{}

/// A table passes, and a run of it keeps the rules and reaches every figure.
pub fn figures_are_reached()
    ensures { Reached }
{}
