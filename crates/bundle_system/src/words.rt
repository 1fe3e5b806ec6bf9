//! The words of the program.

use bundle_folder::Replace;

/// What the words ask for.
#[derive(Clone, Copy, Debug, PartialEq, Eq)]
pub enum Command<'a> {
    /// To pack this folder.
    Pack(&'a str),
    /// To unpack into this folder.
    Unpack(Replace, &'a str),
    /// To list a bundle.
    List,
}

// A folder's name: any word that is not empty and does not begin with `-`.
fn is_folder(word: &str) -> bool {
    !word.is_empty() && !word.starts_with('-')
}

/// The command of these words, if they are one.
pub fn read_words(words: &[String]) -> Option<Command<'_>> {
    let command = words.first()?.as_str();
    let rest = &words[1..];
    match command {
        "pack" => Some(Command::Pack(only_folder(rest)?)),
        "unpack" => read_unpack(rest),
        "list" if rest.is_empty() => Some(Command::List),
        _ => None,
    }
}

fn read_unpack(words: &[String]) -> Option<Command<'_>> {
    if words.first()?.as_str() == "--replace" {
        return Some(Command::Unpack(Replace::Made, only_folder(&words[1..])?));
    }
    Some(Command::Unpack(Replace::Nothing, only_folder(words)?))
}

fn only_folder(words: &[String]) -> Option<&str> {
    let word = words.first()?.as_str();
    if words.len() != 1 || !is_folder(word) {
        return None;
    }
    Some(word)
}
