//! The text of a page.
ghost use Rattle.std.specs.Prelude.{◌≡◌, ◌++◌, IfOk, OnOk};
ghost use Rattle.std.specs.List.{flat_map};
ghost use Rattle.html_page.specs.Escaping as escapes;
ghost use Rattle.html_page.specs.Pages as pages;
ghost use Rattle.html_page.specs.Reading.{IsKept, InText};

use crate::laws::no_text_is_markup;
use crate::piece::{Attr, Piece, Tag, attr_name, tag_name};
use bx_tree::Memory;
use std::alloc::Global;

const TAIL: &str = "</body></html>";

// What precedes all pieces.
fn head() -> &'static str
    ensures { result.now ≡ pages.head_text }
{
    "<!doctype html><html lang=en><head><meta charset=utf-8><title>Build graph</title><style>body{font:14px sans-serif;margin:1em;padding-right:36%}table{border-collapse:collapse}td,th{border:1px solid #ccc;padding:2px 6px;text-align:left;vertical-align:top}td p{margin:0}code{white-space:pre-wrap;word-break:break-all}section{display:none;border:1px solid #888;padding:0 1em 1em;position:fixed;right:1em;top:1em;width:32%;max-height:92%;overflow:auto;background:#fff}section:target{display:block}svg{width:100%;border:1px solid #ccc}rect{width:44px;height:18px;stroke:#555;fill:#fff}path{stroke:#999;fill:none}text{font:10px sans-serif;text-anchor:middle}.ok{background:#c8e6c9;fill:#c8e6c9}.bad{background:#ffcdd2;fill:#ffcdd2}.skip{background:#e0e0e0;fill:#e0e0e0}</style></head><body>"
}

fn shown_byte(byte: u8) -> u8
    ensures { result ≡ escapes.shown_byte byte }
{
    match byte {
        32..=126 => byte,
        _ => b'?',
    }
}

fn add_byte(text: &mut Vec<u8>, byte: u8) -> Result<(), Memory>
    ensures { OnOk result (text.new.items ≡ text.old.items ++ escapes.escaped_byte byte) }
{
    match byte {
        b'&' => text.extend_from_slice(b"&amp;"),
        b'<' => text.extend_from_slice(b"&lt;"),
        b'>' => text.extend_from_slice(b"&gt;"),
        b'"' => text.extend_from_slice(b"&quot;"),
        b'\'' => text.extend_from_slice(b"&#39;"),
        _ => {
            text.push(shown_byte(byte))?;
            Ok(())
        }
    }
}

fn add_escaped(text: &mut Vec<u8>, given: &[u8]) -> Result<(), Memory>
    ensures { OnOk result (text.new.items ≡ text.old.items ++ escapes.escaped given.now) }
{
    'bytes: for byte in given {
        add_byte(text, *byte)?;
    }
    Ok(())
}

// Adds the beginning of a tag.
fn add_start(text: &mut Vec<u8>, tag: Tag) -> Result<(), Memory>
    ensures { OnOk result (text.new.items ≡ text.old.items ++ pages.tag_start tag) }
{
    text.push(b'<')?;
    text.extend_from_slice(tag_name(tag).as_bytes())
}

// Adds an attribute, up to the last byte of its value.
fn add_attr(text: &mut Vec<u8>, attr: Attr, value: &[u8]) -> Result<(), Memory>
    ensures { OnOk result
        (text.new.items ≡ text.old.items ++ pages.attr_start attr ++ escapes.escaped value.now) }
{
    text.push(b' ')?;
    text.extend_from_slice(attr_name(attr).as_bytes())?;
    text.extend_from_slice(b"=\"")?;
    add_escaped(text, value)
}

// Adds the end of a tag.
fn add_close(text: &mut Vec<u8>, tag: Tag) -> Result<(), Memory>
    ensures { OnOk result (text.new.items ≡ text.old.items ++ pages.closing tag) }
{
    text.extend_from_slice(b"</")?;
    text.extend_from_slice(tag_name(tag).as_bytes())?;
    text.push(b'>')?;
    Ok(())
}

fn add_piece(text: &mut Vec<u8>, piece: &Piece) -> Result<(), Memory>
    ensures { OnOk result (text.new.items ≡ text.old.items ++ pages.piece_text piece.now) }
{
    match piece {
        Piece::Open(tag) => {
            add_start(text, *tag)?;
            text.push(b'>')?;
            Ok(())
        }
        Piece::OpenWith(tag, attr, value) => {
            add_start(text, *tag)?;
            add_attr(text, *attr, value.bytes())?;
            text.extend_from_slice(b"\">")
        }
        Piece::Close(tag) => add_close(text, *tag),
        Piece::Text(given) => add_escaped(text, given.bytes()),
    }
}

fn add_pieces(text: &mut Vec<u8>, pieces: &[Piece]) -> Result<(), Memory>
    ensures { OnOk result (text.new.items ≡ text.old.items ++ flat_map pages.piece_text pieces.now) }
{
    'pieces: for piece in pieces {
        add_piece(text, piece)?;
    }
    Ok(())
}

/// The text of the page of these pieces. Each byte of a given text that is no printable character of ASCII is shown
/// as `?`.
pub fn render(alloc: Global, pieces: &[Piece]) -> Result<Vec<u8>, Memory>
    ensures page { IfOk result (λ text. text.items ≡ pages.page_text pieces.now) }
    ensures kept { IsKept InText (pages.page_parts pieces.now) }
{
    no_text_is_markup();
    let mut text = Vec::from_slice(alloc, head().as_bytes())?;
    add_pieces(&mut text, pieces)?;
    text.extend_from_slice(TAIL.as_bytes())?;
    Ok(text)
}
