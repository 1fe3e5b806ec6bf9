//! The words of instructions.
ghost use Rattle.std.specs.Prelude.{◌≡◌};
ghost use Rattle.tool_text.specs.Reading.{op_of as op_named};

/// What an instruction does, without its operands.
#[derive(Clone, Copy, Debug, PartialEq, Eq)]
pub enum Op {
    Set,
    Cat,
    Len,
    Head,
    Tail,
    Split,
    Arg,
    Args,
    Env,
    Eq,
    Jump,
    Exit,
    Say,
    Read,
    Probe,
    List,
    Write,
}

/// The operation that a word names.
pub fn op_of(word: &[u8]) -> Option<Op>
    ensures { result ≡ op_named word.now }
{
    match word {
        b"set" => Some(Op::Set),
        b"cat" => Some(Op::Cat),
        b"len" => Some(Op::Len),
        b"head" => Some(Op::Head),
        b"tail" => Some(Op::Tail),
        b"split" => Some(Op::Split),
        b"arg" => Some(Op::Arg),
        b"args" => Some(Op::Args),
        b"env" => Some(Op::Env),
        b"eq" => Some(Op::Eq),
        b"jump" => Some(Op::Jump),
        b"exit" => Some(Op::Exit),
        b"say" => Some(Op::Say),
        b"read" => Some(Op::Read),
        b"probe" => Some(Op::Probe),
        b"list" => Some(Op::List),
        b"write" => Some(Op::Write),
        _ => None,
    }
}
