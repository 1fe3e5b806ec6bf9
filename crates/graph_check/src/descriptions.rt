//! An order of the descriptions of processes in which just equal descriptions tie.
ghost use Rattle.std.specs.Prelude.{◌≡◌, ◌↔◌};
ghost use Rattle.std.specs.declared.cmp.Ordering.TheVariants as orderings;
ghost use Rattle.std.specs.Cmp.Lexicographic.{slice_cmp};
ghost use Rattle.std.specs.Option.{option_to_list};
ghost use Rattle.bx_tree.specs.Paths.{path_cmp};
ghost use Rattle.graph_check.specs.Descriptions.{description};
ghost use Rattle.graph_check.specs.ProcessOrder.{call_cmp, env_cmp, file_cmp, form_cmp, inputs_cmp};
ghost use Rattle.graph_check.specs.ProcessOrder.{maker_rank, outputs_cmp, process_cmp, text_cmp};

use bx_tree::{FileInput, Path, Text};
use pip_model_types::{DirInput, EnvPair, ProcessDesc};
use std::cmp::Ordering;

fn args_order(a: &[Text], b: &[Text]) -> Ordering
    ensures { result ≡ slice_cmp text_cmp a.now b.now }
{
    a.iter()
        .map(|text| text.bytes())
        .cmp(b.iter().map(|text| text.bytes()))
}

fn env_order(a: &[EnvPair], b: &[EnvPair]) -> Ordering
    ensures { result ≡ slice_cmp env_cmp a.now b.now }
{
    a.iter()
        .map(|v| (v.name.bytes(), v.value.bytes()))
        .cmp(b.iter().map(|v| (v.name.bytes(), v.value.bytes())))
}

// Where a file comes from, as a number: 0 for a source file.
fn file_maker(file: &FileInput) -> u64
    ensures { result ≡ maker_rank file.now }
{
    match file {
        FileInput::Source(_) => 0,
        FileInput::Made(_, maker) => *maker as u64 + 1,
    }
}

fn files_order(a: &[FileInput], b: &[FileInput]) -> Ordering
    ensures { result ≡ slice_cmp file_cmp a.now b.now }
{
    a.iter()
        .map(|file| (file.path(), file_maker(file)))
        .cmp(b.iter().map(|file| (file.path(), file_maker(file))))
}

fn dirs_order(a: &[DirInput], b: &[DirInput]) -> Ordering
    ensures { result ≡ slice_cmp form_cmp a.now b.now }
{
    a.iter()
        .map(|dir| (dir.path(), dir.rank()))
        .cmp(b.iter().map(|dir| (dir.path(), dir.rank())))
}

fn console_order(a: &Option<Path>, b: &Option<Path>) -> Ordering
    ensures { result ≡ slice_cmp path_cmp (option_to_list a.now) (option_to_list b.now) }
{
    match (a, b) {
        (None, None) => Ordering::Equal,
        (None, Some(_)) => Ordering::Less,
        (Some(_), None) => Ordering::Greater,
        (Some(a), Some(b)) => a.cmp(b),
    }
}

fn inputs_order(a: &ProcessDesc, b: &ProcessDesc) -> Ordering
    ensures { result ≡ inputs_cmp a.now b.now }
{
    files_order(a.files.files(), b.files.files()).then(dirs_order(a.dirs.dirs(), b.dirs.dirs()))
}

fn outputs_order(a: &ProcessDesc, b: &ProcessDesc) -> Ordering
    ensures { result ≡ outputs_cmp a.now b.now }
{
    a.outs
        .paths()
        .cmp(b.outs.paths())
        .then(a.outdirs.dirs().cmp(b.outdirs.dirs()))
        .then(console_order(&a.console, &b.console))
}

fn call_order(a: &ProcessDesc, b: &ProcessDesc) -> Ordering
    ensures { result ≡ call_cmp a.now b.now }
{
    a.exe
        .cmp(&b.exe)
        .then(args_order(a.args.texts(), b.args.texts()))
        .then(env_order(a.env.pairs(), b.env.pairs()))
        .then(a.dir.cmp(&b.dir))
}

// How two processes compare. Outputs come first, as they mostly differ.
fn compared(a: &ProcessDesc, b: &ProcessDesc) -> Ordering
    ensures { result ≡ process_cmp a.now b.now }
{
    outputs_order(a, b).then_with(|| call_order(a, b).then_with(|| inputs_order(a, b)))
}

/// How two processes compare. Those of one description tie, and no others.
pub fn process_order(a: &ProcessDesc, b: &ProcessDesc) -> Ordering
    ensures order { result ≡ process_cmp a.now b.now }
    ensures ties { (result ≡ orderings.Equal) ↔ (description a.now ≡ description b.now) }
{
    compared(a, b)
}
