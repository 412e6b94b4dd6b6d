//! A plan file has one listing.
ghost use Rattle.planfile.specs.Plans.{OneListing};

/// A file has one listing: no choice is left to the definitions.
pub fn listing_is_unique()
    ensures { OneListing }
{}
