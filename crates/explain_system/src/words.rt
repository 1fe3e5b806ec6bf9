//! The words of the program.

use bx_engine_front::Limits;
use bx_engine_words::Order;
use std::alloc::{AllocError, Global};

/// What the words ask for.
#[derive(Clone, Copy, Debug, PartialEq, Eq)]
pub enum Command<'a> {
    /// To say what is wrong in the tool in this file, or what its lines do.
    Tool(&'a str),
    /// To show the graph, as a page or as a Graphviz text, perhaps with the report in a file.
    Graph(bool, Option<&'a str>),
    /// To say which processes a build with these limits would run, and why.
    Misses(Limits),
}

// A file's name: any word that is not empty and does not begin with `-`.
fn is_file(word: &str) -> bool {
    !word.is_empty() && !word.starts_with('-')
}

fn read_tool(words: &[String]) -> Option<Command<'_>> {
    let word = words.first()?.as_str();
    if words.len() != 1 || !is_file(word) {
        return None;
    }
    Some(Command::Tool(word))
}

// The options of a graph that follow those which were read.
fn read_options<'a>(
    words: &'a [String],
    page: bool,
    report: Option<&'a str>,
) -> Option<Command<'a>> {
    let mut rest = words;
    let mut page = page;
    let mut report = report;
    'words: while let Some((first, more)) = rest.split_first() {
        if first.as_str() == "--page" && !page {
            page = true;
            rest = more;
        } else if first.as_str() == "--report" && report.is_none() {
            let (file, after) = more.split_first()?;
            if !is_file(file.as_str()) {
                return None;
            }
            report = Some(file.as_str());
            rest = after;
        } else {
            return None;
        }
    }
    Some(Command::Graph(page, report))
}

// The limits of a build, if it uses the cache.
fn limits_of(order: Order) -> Option<Limits> {
    match order {
        Order::Build {
            cached: true,
            eval_budget,
            tool_budget,
            types,
            ..
        } => Some(Limits {
            eval_budget,
            tool_budget,
            types,
        }),
        _ => None,
    }
}

// The limits of the build that these options are of, if it uses the cache.
fn read_build(alloc: Global, options: &[String]) -> Result<Option<Limits>, AllocError> {
    let mut words = Vec::new(alloc);
    words.push(String::from_str(alloc, "build")?)?;
    'options: for option in options {
        words.push(String::from_str(alloc, option.as_str())?)?;
    }
    match bx_engine_words::read_words(&words) {
        Ok(order) => Ok(limits_of(order)),
        Err(_) => Ok(None),
    }
}

/// The command of these words, if they are one. The options of `misses` are those of the build that it is asked about.
pub fn read_words(alloc: Global, words: &[String]) -> Result<Option<Command<'_>>, AllocError> {
    let Some((first, rest)) = words.split_first() else {
        return Ok(None);
    };
    match first.as_str() {
        "tool" => Ok(read_tool(rest)),
        "graph" => Ok(read_options(rest, false, None)),
        "misses" => match read_build(alloc, rest)? {
            Some(limits) => Ok(Some(Command::Misses(limits))),
            None => Ok(None),
        },
        _ => Ok(None),
    }
}
