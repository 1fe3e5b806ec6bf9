//! Which places of a folder lie below which.

ghost use Rattle.std.specs.Prelude.{◌≡◌, ◌↔◌, IsTrue, not};
ghost use Rattle.bundle_folder.specs.Places.{IsApart, IsLeftOut, IsWithin, is_within as within};
ghost use Rattle.bx_tree.specs.Lent.{texts_now};

use bx_tree::has_dir_prefix;

/// Whether a place is another one or lies below it. A place is the names from the folder down, joined by `/`.
pub fn is_within(place: &str, top: &str) -> bool
    ensures { IsTrue result ↔ IsWithin place.now top.now }
{
    place == top || has_dir_prefix(place.as_bytes(), top.as_bytes())
}

// Whether a place is neither another one nor lies below it.
pub(crate) fn is_outside(place: &str, top: &str) -> bool
    ensures { result ≡ not (within place.now top.now) }
{
    !is_within(place, top)
}

// Whether neither of two places is the other or lies below it.
pub(crate) fn is_apart(place: &str, other: &str) -> bool
    ensures { IsTrue result ↔ IsApart place.now other.now }
{
    if is_within(place, other) {
        return false;
    }
    !is_within(other, place)
}

/// Whether a place is one of these or lies below one.
pub fn is_left_out(tops: &[&str], place: &str) -> bool
    ensures { IsTrue result ↔ IsLeftOut (texts_now tops.now) place.now }
{
    tops.iter().any(|top| is_within(place, top))
}
