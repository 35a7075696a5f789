//! The check of all names of a program.

ghost use Rattle.std.specs.Prelude.{◌≡◌, [], IfOk, MatchResult, map};
ghost use Rattle.lq_names.specs.declared.fault.Fault.{Fault as FaultValue};
ghost use Rattle.lq_names.specs.Broken.{IsBroken, IsLeastBroken, Tells, TellsFault};
ghost use Rattle.lq_names.specs.Faults as faults;
ghost use Rattle.lq_names.specs.Headers as spec;
ghost use Rattle.lq_names.specs.Sites as sites;
ghost use Rattle.lq_names.specs.Seen.{is_among};

use crate::effects::{Effect, functions_that};
use crate::fault::{Fault, NamesFault};
use crate::headers::{at_entry, at_head, at_struct};
use crate::names::Names;
use crate::site::Frame;
use crate::statements::in_function_body;
use lq_tree::{Func, Param, Program, StructDef, Variable, declared};
use std::alloc::{AllocError, Global};

/// The least fault, with those of the structs.
fn in_structs<'a>(
    alloc: Global,
    program: &'a Program,
    structs: &'a [StructDef],
    found: Option<Fault>,
) -> Result<Option<Fault>, AllocError>
    ensures { IfOk result (λ r. r ≡ faults.least found (spec.struct_faults program.now [] structs.now)) }
{
    let mut earlier = Names::new(alloc);
    let mut found = found;
    for item in structs {
        found = at_struct(program, &earlier, item, found);
        earlier.add(&item.name)?;
    }
    Ok(found)
}

/// The parameters of a function, as variables in scope.
fn parameters<'a>(alloc: Global, params: &'a [Param]) -> Result<Vec<Variable<'a>>, AllocError>
    ensures { IfOk result (λ scope. scope.items ≡ map spec.parameter params.now) }
{
    let mut scope = Vec::new(alloc);
    for param in params {
        scope.push(Variable::new(&param.name, declared(&param.ctype)))?;
    }
    Ok(scope)
}

/// The least fault, with those of the body of a function.
fn in_function<'a>(
    alloc: Global,
    program: &'a Program,
    prints: &'a Names<'a>,
    allocates: &'a Names<'a>,
    function: &'a Func,
    found: Option<Fault>,
) -> Result<Option<Fault>, AllocError>
    ensures { IfOk result (λ r. r ≡ faults.gathered found
        (sites.sites_list (spec.body_site program.now (is_among prints.now) (is_among allocates.now) function.now) function.now.body)) }
{
    let frame = Frame {
        program,
        prints,
        allocates,
        returns: function.result.as_ref(),
        outside: 0,
        parallel: false,
    };
    let mut scope = parameters(alloc, function.params.as_slice())?;
    in_function_body(frame, &mut scope, function.body.as_slice(), found)
}

/// The least fault, with those of the functions.
fn in_functions<'a, 'n>(
    alloc: Global,
    program: &'a Program,
    prints: &'n Names<'a>,
    allocates: &'n Names<'a>,
    found: Option<Fault>,
) -> Result<Option<Fault>, AllocError>
where
    'a: 'n,
    ensures { IfOk result (λ r. r ≡ faults.least found
        (spec.function_faults program.now (is_among prints.now) (is_among allocates.now) [] program.now.funcs)) }
{
    let mut earlier = Names::new(alloc);
    let mut found = found;
    for function in program.funcs.as_slice() {
        found = at_head(program, &earlier, function, found);
        found = in_function(alloc, &*program, &*prints, &*allocates, &*function, found)?;
        earlier.add(&function.name)?;
    }
    Ok(found)
}

/// The least fault of a program.
fn least_fault(alloc: Global, program: &Program) -> Result<Option<Fault>, AllocError>
    ensures { IfOk result (Tells program.now) }
{
    let prints = functions_that(alloc, program, Effect::Prints)?;
    let allocates = functions_that(alloc, program, Effect::Allocates)?;
    let found = at_entry(program, None);
    let found = in_structs(alloc, program, program.structs.as_slice(), found)?;
    in_functions(alloc, program, &prints, &allocates, found)
}

/// Tests the names of a program (docs/LANGUAGE.md, "Name rules"). Where a rule is broken it answers the rule that
/// is broken first: at the least place, by line and then column, and there the one with the least number.
pub fn check_names(alloc: Global, program: &Program) -> Result<(), NamesFault>
    ensures { MatchResult result (λ _. (fault : FaultValue) → IsBroken program.now fault → ⊥) (TellsFault program.now) }
{
    match least_fault(alloc, program)? {
        Some(Fault { rule, at }) => Err(NamesFault::Rule { rule, at }),
        None => Ok(()),
    }
}
