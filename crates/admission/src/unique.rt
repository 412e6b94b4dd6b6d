//! The check leaves no choice.
ghost use Rattle.admission.specs.Unique.{OneVerdict};

/// No table has two answers of its check: so it passes if and only if the check says so, and else the
/// fault that is told is the one that applies.
pub fn verdict_is_unique<K>()
    ensures { OneVerdict K }
{}
