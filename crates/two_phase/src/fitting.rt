//! Whether outputs are what a process may make.
ghost use Rattle.std.specs.Prelude.{◌≡◌, true};
ghost use Rattle.std.specs.List.{list_all};
ghost use Rattle.std.specs.Option.{option_copied, option_map_or};
ghost use Rattle.memo_format.specs.Entries.{OutputsRise, output_paths};
ghost use Rattle.two_phase_meaning.specs.Usable.{fits as all_fit, may_make as makes};
ghost use Rattle.bx_tree.specs.Paths.{has_path};

use bx_tree::Path;
use memo_format::OutputLine;
use pip_model_types::{ProcessDesc, is_console};

// Whether one of the outputs, which rise by path, has a path.
fn has_output(outputs: &[OutputLine], path: &Path) -> bool
    requires { OutputsRise outputs.now }
    ensures { result ≡ has_path (output_paths outputs.now) path.now }
{
    outputs
        .binary_search_by(|output| output.path.cmp(path))
        .is_ok()
}

// Whether the outputs have all of these paths.
fn have_all(outputs: &[OutputLine], paths: &[Path]) -> bool
    requires { OutputsRise outputs.now }
    ensures { result ≡ list_all (has_path (output_paths outputs.now)) paths.now }
{
    'paths: for path in paths {
        if !has_output(outputs, path) {
            return false;
        }
    }
    true
}

fn have_console(outputs: &[OutputLine], console: Option<&Path>) -> bool
    requires { OutputsRise outputs.now }
    ensures { result
        ≡ option_map_or (has_path (output_paths outputs.now)) (option_copied console.entry) true }
{
    match console {
        Some(path) => has_output(outputs, path),
        None => true,
    }
}

// Whether a process may make a file at a path.
fn may_make(process: &ProcessDesc, path: &Path) -> bool
    ensures { result ≡ makes process.now path.now }
{
    process.outs.has(path) || is_console(&process.console, path) || process.outdirs.any_above(path)
}

fn may_make_all(process: &ProcessDesc, outputs: &[OutputLine]) -> bool
    ensures { result ≡ list_all (makes process.now) (output_paths outputs.now) }
{
    'outputs: for output in outputs {
        if !may_make(process, &output.path) {
            return false;
        }
    }
    true
}

/// Whether outputs, which rise by path, are what a process declares to make and may make.
pub fn fits(process: &ProcessDesc, outputs: &[OutputLine]) -> bool
    requires { OutputsRise outputs.now }
    ensures { result ≡ all_fit process.now (output_paths outputs.now) }
{
    have_all(outputs, process.outs.paths())
        && have_console(outputs, process.console.as_ref())
        && may_make_all(process, outputs)
}
