//! Functions with every name resolved.

ghost use Rattle.std.specs.Prelude.{◌≡◌, ◌≤◌, map, length, OnOk};
ghost use Rattle.dsm_syntax.specs.Views.{view_function, view_items};
ghost use Rattle.dsm_check.specs.Views.{view_function as view_resolved};
ghost use Rattle.dsm_check.specs.Checks.{each};
ghost use Rattle.dsm_check.specs.Bodies.{with_variable, resolve_function, functions_of};
ghost use Rattle.dsm_check.specs.FileTables.{names_of};
ghost use Rattle.dsm_check.specs.BodyTables.{scope_of, blocks_in};
ghost use Rattle.dsm_check.specs.Answers.{Gives};

use crate::items::params_of;
use crate::names::Names;
use crate::resolved::Function;
use crate::scope::Scope;
use crate::statement::Around;
use dsm_base::Text;
use dsm_syntax as tree;
use dsm_syntax::{Item, Name, ProgErr};
use std::alloc::Global;

/// Declares parameters.
fn declare_params<'a>(scope: &mut Scope<'a>, params: &'a [Name]) -> Result<(), ProgErr>
    requires open { 1 ≤ blocks_in scope.old.locals }
    requires first { scope.old.slots ≡ 0 }
    ensures value { Gives (λ _. scope_of scope.new) result
        (each with_variable (scope_of scope.old) params.now) }
    ensures count { OnOk result (scope.new.slots ≡ length params.now) }
    ensures blocks { OnOk result (1 ≤ blocks_in scope.new.locals) }
{
    for param in params {
        scope.declare(param)?;
    }
    Ok(())
}

/// A function with every name resolved.
fn resolve(alloc: Global, file: &Names, function: &tree::Function) -> Result<Function, ProgErr>
    ensures { Gives view_resolved result (resolve_function (names_of file.now)
        (view_function function.now)) }
{
    let around = Around {
        name: &function.name.text,
        returns: function.returns,
    };
    let mut scope = Scope::new(alloc, file);
    scope.open()?;
    declare_params(&mut scope, params_of(&function.params))?;
    let params = scope.slots;
    let body = scope.statements(around, false, function.body.as_slice())?;
    let name = Text::from_slice(alloc, function.name.text.as_slice())?;
    Ok(Function {
        name,
        params,
        slots: scope.slots,
        names: scope.variables,
        body,
    })
}

/// The functions of a program, in the order of the text.
pub fn functions_of(alloc: Global, file: &Names, items: &[Item]) -> Result<Vec<Function>, ProgErr>
    ensures { Gives (λ functions. map view_resolved functions.items) result
        (functions_of (names_of file.now) (view_items items.now)) }
{
    let mut functions = Vec::new(alloc);
    for item in items {
        if let Item::Function(function) = item {
            functions.push(resolve(alloc, file, function)?)?;
        }
    }
    Ok(functions)
}
