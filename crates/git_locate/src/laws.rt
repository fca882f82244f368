//! What holds of weights and of where they lie. Each function is a law: its contract says it.
ghost use Rattle.git_locate.specs.Laws.{
  PlaceIsOne,
  WideIsOne,
  PlaceIsNotWide,
  PlaceOrWide,
  PlacesAreOne,
  FirstWideIsOne,
  PlacesAreNotWide,
  PlacesOrFirstWide,
  InsideExactlyWhereOwn,
};

/// A weight has one place at most.
pub fn place_is_one()
    ensures { PlaceIsOne }
{}

/// It is wide in one way at most.
pub fn wide_is_one()
    ensures { WideIsOne }
{}

/// Not both.
pub fn place_is_not_wide()
    ensures { PlaceIsNotWide }
{}

/// And one of the two.
pub fn place_or_wide()
    ensures { PlaceOrWide }
{}

/// Several weights have one list of places at most.
pub fn places_are_one()
    ensures { PlacesAreOne }
{}

/// One of them at most is the first that is wide, in one way.
pub fn first_wide_is_one()
    ensures { FirstWideIsOne }
{}

/// Not both.
pub fn places_are_not_wide()
    ensures { PlacesAreNotWide }
{}

/// And one of the two.
pub fn places_or_first_wide()
    ensures { PlacesOrFirstWide }
{}

/// A weight is inside of the chamber of a legal signature, and the cones that hold it contain the chamber, exactly where
/// the signature is its own and it is inside of each of these cones.
pub fn inside_exactly_where_own()
    ensures { InsideExactlyWhereOwn }
{}
