//! Tokens with the blanks before them.

ghost use Rattle.std.specs.Prelude.{◌≡◌, IfOk, [], ◌∷◌, ◌++◌};
ghost use Rattle.dscript_lex.specs.declared.token.TokenKind.TheVariants as kinds;
ghost use Rattle.dscript_print.specs.Written.{Writes, written};
ghost use Rattle.dscript_print.specs.Runs.{punct};

use bx_tree::{Memory, Text};
use dscript_lex::TokenKind;
use dscript_print_tokens::{Gap, Laid};
use std::alloc::Global;

/// The tokens that were written, and the blanks before the next.
#[derive(Drop)]
pub(crate) struct Writer {
    pub(crate) alloc: Global,
    pub(crate) laid: Vec<Laid>,
    /// The blanks before the next token.
    pub(crate) gap: Gap,
    /// How many levels lines are indented by.
    pub(crate) depth: u32,
}

impl Writer {
    /// No token yet.
    pub(crate) fn new(alloc: Global) -> Writer
        ensures { written result ≡ [] }
    {
        Writer {
            alloc,
            laid: Vec::new(alloc),
            gap: Gap::None,
            depth: 0,
        }
    }

    /// Puts a space before the next token.
    pub(crate) fn space(&mut self)
        ensures { written self.new ≡ written self.old }
    {
        self.gap = Gap::Space;
    }

    /// Puts nothing before the next token.
    pub(crate) fn no_space(&mut self)
        ensures { written self.new ≡ written self.old }
    {
        self.gap = Gap::None;
    }

    /// Puts the next token on a line of its own.
    pub(crate) fn line(&mut self)
        ensures { written self.new ≡ written self.old }
    {
        self.gap = Gap::Line(self.depth);
    }

    /// Indents the lines that follow by one level more.
    pub(crate) fn indent(&mut self)
        ensures { written self.new ≡ written self.old }
    {
        self.depth = self.depth.saturating_add(1);
    }

    /// Indents the lines that follow by one level less, and puts the next token on one of them unless
    /// nothing was written in between.
    pub(crate) fn outdent(&mut self, is_empty: bool)
        ensures { written self.new ≡ written self.old }
    {
        self.depth = self.depth.saturating_sub(1);
        if is_empty {
            self.no_space();
        } else {
            self.line();
        }
    }

    /// Writes a token.
    pub(crate) fn token(&mut self, kind: TokenKind) -> Result<(), Memory>
        ensures { Writes self.old self.new result (kind ∷ []) }
    {
        self.laid.push(Laid {
            kind,
            gap: self.gap,
        })?;
        self.gap = Gap::None;
        Ok(())
    }

    /// Writes a punctuator.
    pub(crate) fn punctuator(&mut self, punctuator: &[u8]) -> Result<(), Memory>
        ensures { Writes self.old self.new result (kinds.Punct punctuator.now ∷ []) }
    {
        let text = self.text(punctuator)?;
        self.token(TokenKind::Punct(text))
    }

    /// Writes a comma, and a space after it.
    pub(crate) fn comma(&mut self) -> Result<(), Memory>
        ensures { Writes self.old self.new result (punct "," ∷ []) }
    {
        self.punctuator(b",")?;
        self.space();
        Ok(())
    }

    /// Writes a punctuator, with spaces around it.
    pub(crate) fn spaced(&mut self, punctuator: &[u8]) -> Result<(), Memory>
        ensures { Writes self.old self.new result (kinds.Punct punctuator.now ∷ []) }
    {
        self.space();
        self.punctuator(punctuator)?;
        self.space();
        Ok(())
    }

    /// Writes a colon, and a space after it.
    pub(crate) fn colon(&mut self) -> Result<(), Memory>
        ensures { Writes self.old self.new result (punct ":" ∷ []) }
    {
        self.punctuator(b":")?;
        self.space();
        Ok(())
    }

    /// Writes `=>`, with spaces around it.
    pub(crate) fn fat_arrow(&mut self) -> Result<(), Memory>
        ensures { Writes self.old self.new result (punct "=>" ∷ []) }
    {
        self.spaced(b"=>")
    }

    /// Writes a word of the grammar.
    pub(crate) fn keyword(&mut self, word: &[u8]) -> Result<(), Memory>
        ensures { Writes self.old self.new result (kinds.Word word.now ∷ []) }
    {
        let text = self.text(word)?;
        self.token(TokenKind::Word(text))
    }

    /// Writes a name.
    pub(crate) fn name(&mut self, name: &Text) -> Result<(), Memory>
        ensures { Writes self.old self.new result (kinds.Word name.now ∷ []) }
    {
        self.token(TokenKind::Word(name.share()?))
    }

    /// Writes a string.
    pub(crate) fn string(&mut self, string: &Text) -> Result<(), Memory>
        ensures { Writes self.old self.new result (kinds.Str string.now ∷ []) }
    {
        self.token(TokenKind::Str(string.share()?))
    }

    /// Writes a number.
    pub(crate) fn number(&mut self, number: i32) -> Result<(), Memory>
        ensures { Writes self.old self.new result (kinds.Number number ∷ []) }
    {
        self.token(TokenKind::Number(number))
    }

    /// The bytes as a text.
    fn text(&self, bytes: &[u8]) -> Result<Text, Memory>
        ensures { IfOk result (λ text. text ≡ bytes.now) }
    {
        let mut copy = Vec::new(self.alloc);
        copy.extend_from_slice(bytes)?;
        Text::new(self.alloc, copy)
    }
}
