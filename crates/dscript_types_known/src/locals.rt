//! The locals that an expression sees.
ghost use Rattle.std.specs.Prelude.{◌≡◌, ℕ, ◌==◌, IfOk, Option, None, Some, if◌then◌else◌};
ghost use Rattle.std.specs.Option.{option_copied, option_map};
ghost use Rattle.dscript_types_known.specs.Matching.{FoundLocal, captured_inside};
ghost use Rattle.dscript_types_known.specs.Views.{branch_at, first_of, found_local, in_branch, locals_at, recent_over};

use crate::finding::Finding;
use bx_tree::Memory;
use dscript_types_data::Type;
use std::alloc::Global;
use std::rc::Rc;

/// What may become of the value of a local.
#[derive(Clone, Copy, Debug, PartialEq, Eq)]
pub enum Hold {
    /// It stays: that of a parameter or a constant.
    Fixed,
    /// It may be assigned.
    Variable,
    /// It may be assigned in a function around this one.
    Captured,
}

/// A local: what is found of its type, and how it holds its value.
#[derive(Drop)]
pub struct Local {
    pub finding: Finding<Type>,
    pub hold: Hold,
}

/// How many locals at most are kept one after another.
const MAX_RECENT: u32 = 8;

/// Locals by number. What is added to them makes further ones, and these stay as they are, since all parts are shared.
#[derive(Drop)]
pub struct Locals {
    // those that were added last
    recent: Option<Rc<Recent>>,
    // how many these are
    count: u32,
    // the others
    root: Option<Rc<Branch>>,
}

// A local with its number, and those that were added before it.
#[derive(Drop)]
struct Recent {
    number: u32,
    local: Local,
    older: Option<Rc<Recent>>,
}

// The local whose number is 0, and the others by their numbers less one: those that are even, and those that are odd,
// each at half of that.
#[derive(Drop)]
struct Branch {
    here: Option<Local>,
    even: Option<Rc<Branch>>,
    odd: Option<Rc<Branch>>,
}

impl Local {
    /// The local, shared.
    pub fn share(&self) -> Result<Local, Memory>
        ensures { IfOk result (λ l. found_local l ≡ found_local self.now) }
    {
        Ok(Local {
            finding: self.finding.share()?,
            hold: self.hold,
        })
    }

    /// The local in the body of a callback that captures it.
    pub fn inside(&self) -> Result<Local, Memory>
        ensures { IfOk result (λ l. found_local l ≡ captured_inside (found_local self.now)) }
    {
        let hold = match self.hold {
            Hold::Fixed => Hold::Fixed,
            Hold::Variable | Hold::Captured => Hold::Captured,
        };
        Ok(Local {
            finding: self.finding.inside()?,
            hold,
        })
    }
}

impl Locals {
    /// No locals.
    pub fn new() -> Locals
        ensures { (number : ℕ) → locals_at result number ≡ None }
    {
        Locals {
            recent: None,
            count: 0,
            root: None,
        }
    }

    /// The local of a number.
    pub fn get(&self, number: u32) -> Option<&Local>
        ensures { option_map found_local (option_copied result) ≡ locals_at self.now number }
    {
        match recent_local(&self.recent, number) {
            Some(local) => Some(local),
            None => local_in(&self.root, number),
        }
    }

    /// The same locals, shared.
    pub fn share(&self) -> Result<Locals, Memory>
        ensures { IfOk result (λ locals. (number : ℕ) → locals_at locals number ≡ locals_at self.now number) }
    {
        Ok(Locals {
            recent: share_recent(&self.recent)?,
            count: self.count,
            root: share_branch(&self.root)?,
        })
    }

    /// These locals and another, which takes the place of one of its number.
    pub fn with(&self, alloc: Global, number: u32, local: Local) -> Result<Locals, Memory>
        ensures { IfOk result (λ locals. (other : ℕ) → locals_at locals other
            ≡ (if other == number then Some (found_local local) else locals_at self.now other)) }
    {
        if self.count >= MAX_RECENT {
            return self.settled(alloc)?.adding(alloc, number, local);
        }
        self.adding(alloc, number, local)
    }

    // These locals and another, whose number is among those that were added last.
    fn adding(&self, alloc: Global, number: u32, local: Local) -> Result<Locals, Memory>
        ensures { IfOk result (λ locals. (other : ℕ) → locals_at locals other
            ≡ (if other == number then Some (found_local local) else locals_at self.now other)) }
    {
        let older = share_recent(&self.recent)?;
        Ok(Locals {
            recent: Some(Rc::new(
                alloc,
                Recent {
                    number,
                    local,
                    older,
                },
            )?),
            count: self.count.saturating_add(1),
            root: share_branch(&self.root)?,
        })
    }

    // The same locals, none of which counts as added last.
    fn settled(&self, alloc: Global) -> Result<Locals, Memory>
        ensures { IfOk result (λ locals. (number : ℕ) → locals_at locals number ≡ locals_at self.now number) }
    {
        Ok(Locals {
            recent: None,
            count: 0,
            root: with_recent(alloc, &self.recent, &self.root)?,
        })
    }
}

// The local of a number among those that were added last.
fn recent_local(recent: &Option<Rc<Recent>>, number: u32) -> Option<&Local>
    ensures { (other : Option FoundLocal) → recent_over recent.now number other
        ≡ first_of (option_map found_local (option_copied result)) other }
{
    match recent {
        Some(entry) => {
            if entry.number == number {
                Some(&entry.local)
            } else {
                recent_local(&entry.older, number)
            }
        }
        None => None,
    }
}

fn share_recent(recent: &Option<Rc<Recent>>) -> Result<Option<Rc<Recent>>, Memory>
    ensures { IfOk result (λ copy. (number : ℕ) (other : Option FoundLocal)
        → recent_over copy number other ≡ recent_over recent.now number other) }
{
    match recent {
        Some(recent) => Ok(Some(recent.clone()?)),
        None => Ok(None),
    }
}

// The branch with the locals that were added last, from the oldest on.
fn with_recent(
    alloc: Global,
    recent: &Option<Rc<Recent>>,
    root: &Option<Rc<Branch>>,
) -> Result<Option<Rc<Branch>>, Memory>
    ensures { IfOk result (λ new. (number : ℕ)
        → branch_at new number ≡ recent_over recent.now number (branch_at root.now number)) }
{
    match recent {
        Some(entry) => {
            let below = with_recent(alloc, &entry.older, root)?;
            let local = entry.local.share()?;
            Ok(Some(with_local(alloc, &below, entry.number, local)?))
        }
        None => share_branch(root),
    }
}

// The local of a number in a branch.
fn local_in(root: &Option<Rc<Branch>>, number: u32) -> Option<&Local>
    ensures { option_map found_local (option_copied result) ≡ branch_at root.now number }
{
    let mut here = root;
    let mut left = number;
    'down: while let Some(branch) = here {
        if left == 0 {
            return branch.here.as_ref();
        }
        let below = left - 1;
        left = below / 2;
        if below % 2 == 0 {
            here = &branch.even;
            continue;
        }
        here = &branch.odd;
    }
    None
}

fn share_branch(branch: &Option<Rc<Branch>>) -> Result<Option<Rc<Branch>>, Memory>
    ensures { IfOk result (λ copy. (number : ℕ) → branch_at copy number ≡ branch_at branch.now number) }
{
    match branch {
        Some(branch) => Ok(Some(branch.clone()?)),
        None => Ok(None),
    }
}

fn share_local(local: &Option<Local>) -> Result<Option<Local>, Memory>
    ensures { IfOk result (λ copy. option_map found_local copy ≡ option_map found_local local.now) }
{
    match local {
        Some(local) => Ok(Some(local.share()?)),
        None => Ok(None),
    }
}

// The parts of a branch, shared.
fn parts_of(branch: &Option<Rc<Branch>>) -> Result<Branch, Memory>
    ensures { IfOk result (λ parts. (number : ℕ) → in_branch parts number ≡ branch_at branch.now number) }
{
    match branch {
        Some(branch) => Ok(Branch {
            here: share_local(&branch.here)?,
            even: share_branch(&branch.even)?,
            odd: share_branch(&branch.odd)?,
        }),
        None => Ok(Branch {
            here: None,
            even: None,
            odd: None,
        }),
    }
}

// The branch with another local, which takes the place of one of its number.
fn with_local(
    alloc: Global,
    branch: &Option<Rc<Branch>>,
    number: u32,
    local: Local,
) -> Result<Rc<Branch>, Memory>
    ensures { IfOk result (λ added. (other : ℕ) → branch_at (Some added) other
        ≡ (if other == number then Some (found_local local) else branch_at branch.now other)) }
{
    let Branch { here, even, odd } = parts_of(branch)?;
    if number == 0 {
        let here = Some(local);
        return Ok(Rc::new(alloc, Branch { here, even, odd })?);
    }
    let below = number - 1;
    if below % 2 == 0 {
        let even = Some(with_local(alloc, &even, below / 2, local)?);
        return Ok(Rc::new(alloc, Branch { here, even, odd })?);
    }
    let odd = Some(with_local(alloc, &odd, below / 2, local)?);
    Ok(Rc::new(alloc, Branch { here, even, odd })?)
}
