//! Functions, whose bodies are walked through between their opening and their closing.

ghost use Rattle.std.specs.Prelude.{◌≡◌, ◌+◌, ◌++◌, ◌<◌, ◌≤◌, IfOk, map, vec_len, nat_lt, slice_set};
ghost use Rattle.std.specs.List.{filter};
ghost use Rattle.dscript_ast.specs.Views.{param_tree};
ghost use Rattle.dscript_names_binding.specs.Opened.{Closed, Opened};
ghost use Rattle.dscript_names_binding.specs.Seen.{HasNumbers};
ghost use Rattle.dscript_names_binding.specs.Walk.{each_once, params_from, with_once};

use crate::locals::param_locals;
use crate::scene::Scene;
use crate::walker::Walker;
use bx_tree::Memory;
use dscript_ast::Param;
use dscript_names_scopes::Local;
use dscript_program::{Body, Function};
use std::alloc::{AllocError, Global};
use std::collections::BTreeSet;

/// A function whose body is walked through.
#[derive(Drop)]
pub(crate) struct OpenFunction {
    /// The place of the function in the table.
    pub number: usize,
    pub first_local: u32,
    /// How many names came before.
    pub names: usize,
    pub params: Vec<Param>,
}

/// Adds a number, unless it is there already. The set has the numbers of the list.
fn add_once(numbers: &mut Vec<u32>, seen: &mut BTreeSet<u32>, number: u32) -> Result<(), Memory>
    requires { HasNumbers numbers.old.items seen.old }
    ensures numbers { IfOk result (λ _. numbers.new.items ≡ with_once numbers.old.items number) }
    ensures seen { IfOk result (λ _. HasNumbers numbers.new.items seen.new) }
{
    if seen.insert(number)? {
        numbers.push(number)?;
    }
    Ok(())
}

/// The names that come before a function's first local, each once.
fn captured(alloc: Global, names: &[u32], first: u32) -> Result<Vec<u32>, Memory>
    ensures { IfOk result (λ v. v.items ≡ each_once (filter (λ n. nat_lt n first) names.now)) }
{
    let mut captured = Vec::new(alloc);
    let mut seen = BTreeSet::new(alloc);
    'names: for name in names {
        if *name < first {
            add_once(&mut captured, &mut seen, *name)?;
        }
    }
    Ok(captured)
}

/// A function with nothing in it, until its body is known.
fn placeholder(alloc: Global) -> Function {
    Function {
        file: 0,
        captured: Vec::new(alloc),
        params: Vec::new(alloc),
        first_local: 0,
        local_count: 0,
        body: Body::Block(Vec::new(alloc)),
    }
}

/// Puts a function into the place of another.
fn put(functions: &mut Vec<Function>, place: usize, function: Function)
    requires { place < vec_len functions.old }
    ensures { functions.new.items ≡ slice_set functions.old.items place function }
{
    functions[place] = function;
}

/// The number that comes this many numbers after the first.
fn local_after(first: u32, count: usize) -> Result<u32, Memory>
    ensures { IfOk result (λ n. n ≡ first + count) }
{
    let Ok(count) = u32::try_from(count) else {
        return Err(AllocError);
    };
    first.checked_add(count).ok_or(AllocError)
}

/// A number as the program has it.
pub fn number_of(place: usize) -> Result<u32, Memory>
    ensures { IfOk result (λ n. n ≡ place) }
{
    u32::try_from(place).ok().ok_or(AllocError)
}

/// The parameters and the locals of a body, which are one block.
fn body_locals(
    alloc: Global,
    params: &[Param],
    locals: Vec<Local>,
    first: u32,
) -> Result<Vec<Local>, Memory>
    ensures { IfOk result (λ v. v.items ≡ params_from first (map param_tree params.now) ++ locals.items) }
{
    let mut all = param_locals(alloc, params, first)?;
    'locals: for local in locals {
        all.push(local)?;
    }
    Ok(all)
}

impl Walker {
    /// Goes into the body of a function, which declares these locals.
    pub(crate) fn open(
        &mut self,
        alloc: Global,
        params: Vec<Param>,
        locals: Vec<Local>,
    ) -> Result<OpenFunction, Memory>
        ensures { IfOk result (λ f. Opened (map param_tree params.items) locals.items self.old self.new f) }
    {
        let number = self.functions.len();
        let names = self.names.len();
        let first_local = self.locals;
        let block = body_locals(alloc, params.as_slice(), locals, first_local)?;
        self.locals = local_after(first_local, params.len())?;
        self.functions.push(placeholder(alloc))?;
        self.enter(block, true)?;
        Ok(OpenFunction {
            number,
            first_local,
            names,
            params,
        })
    }

    /// Goes out of the body of a function again, and gives its number.
    pub(crate) fn close(
        &mut self,
        scene: &Scene<'_>,
        function: OpenFunction,
        body: Body,
    ) -> Result<u32, Memory>
        requires function { function.number < vec_len self.old.functions }
        requires names { function.names ≤ vec_len self.old.names }
        ensures { IfOk result (λ n. Closed scene.now.site.number function body self.old self.new n) }
    {
        let file = number_of(scene.site.number)?;
        let number = number_of(function.number)?;
        let first_local = function.first_local;
        let (_, own) = self.names.as_slice().split_at(function.names);
        let captured = captured(scene.alloc, own, first_local)?;
        let closed = Function {
            file,
            captured,
            params: function.params,
            first_local,
            local_count: self.locals.saturating_sub(first_local),
            body,
        };
        put(&mut self.functions, function.number, closed);
        self.leave();
        Ok(number)
    }
}
