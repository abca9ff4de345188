ghost use Rattle.tf_naked.specs.Laws.{MarkedPlacesAreCovers};

/// The argument places that are marked are exactly the covers of parameters.
pub fn marked_places_are_covers()
    ensures { MarkedPlacesAreCovers }
{}
