//! The plain form of functions.

ghost use Rattle.std.specs.Prelude.{◌≡◌, [], map, IfOk, OnOk};
ghost use Rattle.lq_tree.specs.Seen.{seen};
ghost use Rattle.lq_tree.specs.Types as types;
ghost use Rattle.lq_plain.specs.Plain as spec;
ghost use Rattle.lq_plain.specs.SeenMade.{made_of};

use crate::copies::{copy_name, copy_result, copy_type};
use crate::lookups::numbered;
use crate::made::Made;
use crate::scope::Scope;
use crate::site::Frame;
use crate::statements::block;
use lq_tree::{CType, ExprType, Func, Items, PFunc, Param, Program, declared};
use std::alloc::{AllocError, Global};

// The parameters are the first slots.
fn parameters<'a>(
    alloc: Global,
    params: &'a [Param],
    scope: &mut Scope<'a>,
    made: &mut Made,
) -> Result<(), AllocError>
    requires scope { scope.old ≡ [] }
    requires made { made_of made.old ≡ spec.fresh [] }
    ensures scope { OnOk result (scope.new ≡ spec.scope_from 0 params.now []) }
    ensures made { OnOk result (made_of made.new ≡ spec.fresh (map spec.param_slot params.now)) }
{
    for param in params {
        let name = copy_name(alloc, &param.name)?;
        let kind = copy_type(alloc, &param.ctype)?;
        let slot = made.add_slot(Some(name), kind)?;
        scope.push(&param.name, declared(&param.ctype), slot)?;
    }
    Ok(())
}

// What a function gives.
fn result_of(given: &Option<CType>) -> ExprType<'_>
    ensures { seen result ≡ types.result_of given.now }
{
    match given {
        Some(ctype) => declared(ctype),
        None => ExprType::Nothing,
    }
}

// What the body of a function comes to, with all slots.
fn plain_body<'a>(
    alloc: Global,
    program: &'a Program,
    function: &'a Func,
) -> Result<Made, AllocError>
    ensures { IfOk result (λ m. made_of m ≡ spec.plain_body program.now function.now) }
{
    let frame = Frame {
        alloc,
        program,
        result: result_of(&function.result),
    };
    let mut scope = Scope::new(alloc);
    let mut made = Made {
        slots: Items::new(alloc),
        front: Items::new(alloc),
    };
    parameters(alloc, function.params.as_slice(), &mut scope, &mut made)?;
    block(frame, &mut scope, function.body.as_slice(), &mut made)?;
    Ok(made)
}

/// The plain form of a function.
pub fn plain_func<'a>(
    alloc: Global,
    program: &'a Program,
    function: &'a Func,
) -> Result<PFunc, AllocError>
    ensures { IfOk result (λ f. f ≡ spec.plain_func program.now function.now) }
{
    let Made { slots, front } = plain_body(alloc, program, function)?;
    Ok(PFunc {
        at: function.at,
        name: copy_name(alloc, &function.name)?,
        result: copy_result(alloc, &function.result)?,
        params: numbered(function.params.len())?,
        slots,
        body: front,
    })
}
