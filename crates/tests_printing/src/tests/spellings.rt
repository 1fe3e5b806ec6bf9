//! Rows of tokens with the text that they are spelled as.

use bx_tree::Text;
use dscript_lex::TokenKind;
use dscript_print_tokens::{Gap, Laid, spell};
use std::alloc::Global;
use std::test::Fail;

// Tokens, with a blank between two, and their text. Each token is a letter for its kind, then `n`, `s` or a
// digit for nothing, a space or a line indented by that number of levels before it, and then its spelling
// or value.
const LAYOUTS: &[(&str, &str)] = &[
    (
        "Wnconst Wsx Ps= Ns2147483647 Pn;",
        "const x = 2147483647;\n",
    ),
    (
        "Pn{ W1return Ns0 Pn; P1{ P2; P1} P0}",
        "{\n    return 0;\n    {\n        ;\n    }\n}\n",
    ),
    (
        "Wnf Pn( Pn{ WnoutputPath Pn: Wsp Enout/a.txt Pn, Wstext Pn: Sshi Pn} Pn) Pn. Wna Pn[ Pn- Nn10 Pn] Pn;",
        "f({outputPath: p`out/a.txt`, text: \"hi\"}).a[-10];\n",
    ),
];

const NEIGHBOURS: &[(&str, &str)] = &[
    ("Wna Wnb", "a b\n"),
    ("Wna Nn1", "a 1\n"),
    ("Nn1 Wna", "1 a\n"),
    ("Nn1 Nn2", "1 2\n"),
    ("Pn- Pn-", "- -\n"),
    ("Pn< Pn=", "< =\n"),
    ("Pn= Pn>", "= >\n"),
    ("Pn== Pn=", "== =\n"),
    ("Pn? Pn.", "? .\n"),
    ("Pn. Pn..", ". ..\n"),
    ("Pn/ Pn/", "/ /\n"),
    ("Pn/ Pn*", "/ *\n"),
    ("Pn! Pn!", "!!\n"),
    ("Pn> Pn>", ">>\n"),
    ("Pn=> Pn-", "=>-\n"),
    ("Pn) Pn)", "))\n"),
    ("Pn... Wna", "...a\n"),
    ("Pn@@ Wnpublic", "@@public\n"),
    ("Pn! Wna", "!a\n"),
    ("Sna Snb", "\"a\"\"b\"\n"),
    ("Wnd En.", "d`.`\n"),
];

const ESCAPES: &[(&str, &str)] = &[
    ("Sn", "\"\"\n"),
    ("Sna\"b\\c\nd", "\"a\\\"b\\\\c\\nd\"\n"),
    ("Sn\u{0}\t\r'`${é", "\"\u{0}\t\r'`${é\"\n"),
    ("Ena`b\\c${d$e{$", "`a\\`b\\\\c\\${d$e{$`\n"),
    ("En$${'\"\n\u{0}", "`$\\${'\"\n\u{0}`\n"),
    ("Hna$ Wnx Mn{\\ Wny Tn}$", "`a$${x}{\\\\${y}}$`\n"),
];

fn kind_of(letter: u8, value: Text) -> Option<TokenKind> {
    match letter {
        b'W' => Some(TokenKind::Word(value)),
        b'S' => Some(TokenKind::Str(value)),
        b'E' => Some(TokenKind::Whole(value)),
        b'H' => Some(TokenKind::Head(value)),
        b'M' => Some(TokenKind::Middle(value)),
        b'T' => Some(TokenKind::Tail(value)),
        b'P' => Some(TokenKind::Punct(value)),
        _ => None,
    }
}

fn number_of(text: &[u8]) -> Option<TokenKind> {
    let digits = str::from_utf8(text).ok()?;
    Some(TokenKind::Number(digits.parse::<i32>().ok()?))
}

fn gap_of(letter: u8) -> Gap {
    match letter {
        b'n' => Gap::None,
        b's' => Gap::Space,
        _ => Gap::Line(u32::from(letter.saturating_sub(b'0'))),
    }
}

fn token_of(alloc: Global, word: &[u8]) -> Result<Laid, Fail> {
    let [letter, gap, text @ ..] = word else {
        return Err(Fail::new("no token"));
    };
    let kind = match *letter {
        b'N' => number_of(text),
        _ => kind_of(*letter, Text::new(alloc, text.to_vec(alloc)?)?),
    };
    Ok(Laid {
        kind: kind.ok_or("no kind")?,
        gap: gap_of(*gap),
    })
}

/// The text of the tokens in a row.
fn spelled(alloc: Global, row: &str) -> Result<Vec<u8>, Fail> {
    let mut laid = Vec::new(alloc);
    for word in row.split(' ') {
        laid.push(token_of(alloc, word.as_bytes())?)?;
    }
    Ok(spell(alloc, &laid)?)
}

#[test]
fn tokens_are_spelled_with_the_blanks_they_need(rt: HostRuntime) -> Result<(), Fail> {
    for rows in [LAYOUTS, NEIGHBOURS, ESCAPES] {
        for (row, text) in rows {
            assert_eq!(rt; spelled(rt.alloc(), row)?.as_slice(), text.as_bytes());
        }
    }
    let nothing = spell(rt.alloc(), &[])?;
    assert!(rt; nothing.is_empty());
    Ok(())
}
