//! What a check of a store tells.
ghost use Rattle.std.specs.Prelude.{◌≡◌, ◌++◌, Err, IfOk, OnOk, Some, length, map, string_bytes};
ghost use Rattle.std.specs.Option.{option_to_list};
ghost use Rattle.bx_io.specs.Holdings.{Holdings, Keeps, held_in};
ghost use Rattle.two_phase.specs.Calls.{KeeperCall};
ghost use Rattle.cache_care_check.specs.CareLists.{IsCareList, entry_count as count_of, has_bad_remark};
ghost use Rattle.cache_care_check.specs.CareLists.{is_bad, line_remark, one_entry, remark_of, remarks_of};

use crate::fault::CareFault;
use crate::surveying::{Finding, Survey, survey_store};
use bx_io::Keeper;
use std::alloc::{AllocError, Global};

/// A line of what a check tells.
#[derive(Drop)]
pub enum CareLine {
    /// The name does not hold what it says.
    Damaged(String),
    /// The name holds an entry that is not honest.
    Bad(String),
}

/// What a check tells of a store: the damaged names and those of bad entries, in one list rising by name; how many names
/// there are, damaged ones too; and how many of them hold an entry as they say.
#[derive(Drop)]
pub struct CareList {
    pub lines: Vec<CareLine>,
    pub names: u64,
    pub entries: u64,
}

// The line of a name, if it is told.
fn line(name: &String, finding: Finding) -> Result<Option<CareLine>, AllocError>
    ensures { IfOk result (λ line. map line_remark (option_to_list line) ≡ remark_of (string_bytes name.now) finding) }
{
    match finding {
        Finding::Damaged => Ok(Some(CareLine::Damaged(name.clone()?))),
        Finding::Bad => Ok(Some(CareLine::Bad(name.clone()?))),
        Finding::Honest | Finding::Other => Ok(None),
    }
}

// Adds the line of a name, if it is told.
fn add_line(lines: &mut Vec<CareLine>, name: &String, finding: Finding) -> Result<(), AllocError>
    ensures { OnOk result (map line_remark lines.new.items
        ≡ map line_remark lines.old.items ++ remark_of (string_bytes name.now) finding) }
{
    match line(name, finding)? {
        Some(line) => Ok(lines.push(line)?),
        None => Ok(()),
    }
}

fn lines(alloc: Global, survey: &Survey) -> Result<Vec<CareLine>, AllocError>
    requires { length survey.now.findings.items ≡ length survey.now.names.items }
    ensures { IfOk result (λ lines. map line_remark lines.items
        ≡ remarks_of (map string_bytes survey.now.names.items) survey.now.findings.items) }
{
    let mut lines = Vec::new(alloc);
    'names: for place in 0..survey.names.len() {
        add_line(&mut lines, &survey.names[place], survey.findings[place])?;
    }
    Ok(lines)
}

// How many entries a finding is of: one or none.
fn entries_of(finding: Finding) -> u64
    ensures { result ≡ one_entry finding }
{
    match finding {
        Finding::Bad | Finding::Honest => 1,
        Finding::Damaged | Finding::Other => 0,
    }
}

// How many of the findings are of entries.
fn entry_count(findings: &[Finding]) -> u64
    ensures { result ≡ count_of findings.now }
{
    let mut count = 0;
    'findings: for finding in findings {
        count += entries_of(*finding);
    }
    count
}

/// Tells which names of a store are damaged, and which of its entries are not honest. It changes nothing, and stops at the
/// first call of the store that fails.
pub fn check_store<K: Keeper>(alloc: Global, keeper: &mut K) -> Result<CareList, CareFault>
    ensures list { (S : Holdings) → held_in (K.known keeper.new) ≡ Some S → IfOk result (IsCareList S) }
    ensures known { Keeps (K.known keeper.old) (K.known keeper.new) }
    ensures keeper { KeeperCall (K.bound keeper.old) (K.bound keeper.new) (K.faults keeper.old)
        (K.faults keeper.new) (result ≡ Err CareFault.Failed) }
{
    let survey = survey_store(alloc, keeper)?;
    let lines = lines(alloc, &survey)?;
    Ok(CareList {
        lines,
        names: survey.names.len() as u64,
        entries: entry_count(survey.findings.as_slice()),
    })
}

// Whether a line tells of a bad entry.
fn is_bad_line(line: &CareLine) -> bool
    ensures { result ≡ is_bad (line_remark line.now).0 }
{
    match line {
        CareLine::Bad(_) => true,
        CareLine::Damaged(_) => false,
    }
}

/// Whether a check found a bad entry.
pub fn has_bad(list: &CareList) -> bool
    ensures { result ≡ has_bad_remark (map line_remark list.now.lines.items) }
{
    'lines: for line in list.lines.iter() {
        if is_bad_line(line) {
            return true;
        }
    }
    false
}
