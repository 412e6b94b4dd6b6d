//! Worked examples of the figures.
ghost use Rattle.figures.specs.Worked.{WorkedPlan};

/// The figures of a plan of two streams over two lines, and that it passes every check.
pub fn worked_plan_stands()
    ensures { WorkedPlan }
{}
