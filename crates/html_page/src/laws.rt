//! How pages are read.
ghost use Rattle.std.specs.Prelude.{ℕ, List, map};
ghost use Rattle.html_page.specs.Escaping.{StandsFor, escaped, shown_byte};
ghost use Rattle.html_page.specs.Pages.{page_parts};
ghost use Rattle.html_page.specs.Reading.{IsKept, InText};
ghost use Rattle.html_page.specs.declared.piece.Piece.{Piece as AnyPiece};

/// In every page no byte of a given text opens a tag, or begins or ends the value of an attribute: each given text
/// stands between tags or in a value, and at each of its bytes a reader stays there.
pub fn no_text_is_markup()
    ensures { (pieces : List AnyPiece) → IsKept InText (page_parts pieces) }
{}

/// A text that stands escaped in a page is read as the text that was given, with `?` for each byte that is no printable
/// character of ASCII.
pub fn text_is_read_back()
    ensures { (text : List ℕ) → StandsFor (escaped text) (map shown_byte text) }
{}
