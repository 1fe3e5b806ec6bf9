//! Pieces of a page.
ghost use Rattle.std.specs.Prelude.{◌≡◌};
ghost use Rattle.html_page.specs.Pages as pages;

use bx_tree::Text;

/// An element of HTML, or of a picture in it.
#[derive(Clone, Copy, Debug, PartialEq, Eq)]
pub enum Tag {
    Heading,
    Subheading,
    Paragraph,
    Table,
    Row,
    HeadCell,
    Cell,
    Link,
    Section,
    List,
    Item,
    Code,
    /// A picture, with groups of boxes, lines and labels.
    Picture,
    Group,
    Box,
    Line,
    Label,
}

/// An attribute.
#[derive(Clone, Copy, Debug, PartialEq, Eq)]
pub enum Attr {
    Id,
    Class,
    Href,
    Transform,
    /// The course of a line.
    Course,
    ViewBox,
}

/// A piece of a page: the beginning of an element, perhaps with an attribute, its end, or a text.
#[derive(Drop)]
pub enum Piece {
    Open(Tag),
    OpenWith(Tag, Attr, Text),
    Close(Tag),
    Text(Text),
}

pub(crate) fn tag_name(tag: Tag) -> &'static str
    ensures { result.now ≡ pages.tag_name tag }
{
    match tag {
        Tag::Heading => "h1",
        Tag::Subheading => "h2",
        Tag::Paragraph => "p",
        Tag::Table => "table",
        Tag::Row => "tr",
        Tag::HeadCell => "th",
        Tag::Cell => "td",
        Tag::Link => "a",
        Tag::Section => "section",
        Tag::List => "ul",
        Tag::Item => "li",
        Tag::Code => "code",
        Tag::Picture => "svg",
        Tag::Group => "g",
        Tag::Box => "rect",
        Tag::Line => "path",
        Tag::Label => "text",
    }
}

pub(crate) fn attr_name(attr: Attr) -> &'static str
    ensures { result.now ≡ pages.attr_name attr }
{
    match attr {
        Attr::Id => "id",
        Attr::Class => "class",
        Attr::Href => "href",
        Attr::Transform => "transform",
        Attr::Course => "d",
        Attr::ViewBox => "viewBox",
    }
}
