//! Why a text is no file.

use dscript_program::Place;

/// Why a text is no file of a form.
#[derive(Clone, Copy, Debug, PartialEq, Eq)]
pub enum ReadFault {
    /// It is no list of tokens: at this place no token begins, nor a blank or a comment.
    Lex(Place),
    /// The grammar derives no file from its tokens. In a project file the item at this place is the first
    /// that is wrong; in a configuration it is the place of the first token, or of the text's end.
    Syntax(Place),
    Memory,
}
