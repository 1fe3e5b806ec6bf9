//! What holds of all violations.
ghost use Rattle.violations.specs.Leading.{LeadsAreWalks as TheLeadsAreWalks};

/// The computation of whether edges lead from one pip to another finds just the walks of one edge or more.
pub fn leads_are_walks()
    ensures { TheLeadsAreWalks }
{}
