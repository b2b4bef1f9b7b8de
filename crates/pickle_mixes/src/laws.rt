//! Laws of the definitions. The functions do nothing: what they ensure holds of all bytes.

ghost use Rattle.pickle_mixes.specs.Laws.{PlacesAreStoodAt, PlacesAreFound};

/// At each place that `acting_places` answers some loader may stand, and act.
pub fn places_are_stood_at()
    ensures { PlacesAreStoodAt }
{}

/// And it answers each such place.
pub fn places_are_found()
    ensures { PlacesAreFound }
{}
