//! Expressions with every name resolved.

ghost use Rattle.std.specs.Prelude.{◌≡◌};
ghost use Rattle.dsm_syntax.specs.Views as tree;
ghost use Rattle.dsm_check.specs.Views.{view, views, view_location};
ghost use Rattle.dsm_check.specs.Bodies.{as_single, as_array, as_called, is_void, resolve_call, resolve, resolve_place, resolve_all, resolve_effect, optional};
ghost use Rattle.dsm_check.specs.Answers.{Gives};

use crate::names::Named;
use crate::refusal::{arg_count, wrong_kind};
use crate::resolved::{Array, Expression, Location};
use crate::scope::Scope;
use dsm_syntax as tree;
use dsm_syntax::{Name, Place, ProgErr, Returns, Sharing};
use std::alloc::Global;

/// A single cell or a variable.
fn as_single(alloc: Global, name: &Name, named: Named) -> Result<Location, ProgErr>
    ensures { Gives view_location result (as_single name.now named) }
{
    match named {
        Named::Variable(slot) => Ok(Location::Variable(slot)),
        Named::Cells(sharing, first, None) => Ok(Location::Cell(sharing, first, name.line)),
        _ => Err(wrong_kind(alloc, name)),
    }
}

/// An array of cells.
fn as_array(alloc: Global, name: &Name, named: Named) -> Result<(Sharing, Array), ProgErr>
    ensures { Gives (λ array. array) result (as_array name.now named) }
{
    match named {
        Named::Cells(sharing, first, Some(size)) => Ok((sharing, Array { first, size })),
        _ => Err(wrong_kind(alloc, name)),
    }
}

/// Whether a function has no value.
pub fn is_void(returns: Returns) -> bool
    ensures { result ≡ is_void returns }
{
    matches!(returns, Returns::Void)
}

/// A function other than `main`, with a value where one is needed, and with so many parameters.
fn as_called(
    alloc: Global,
    needed: bool,
    name: &Name,
    given: usize,
    named: Named,
) -> Result<u16, ProgErr>
    ensures { Gives (λ number. number) result (as_called needed name.now given named) }
{
    let Named::Function {
        number,
        returns,
        params,
    } = named
    else {
        return Err(wrong_kind(alloc, name));
    };
    if name.text.as_slice() == b"main".as_slice() || (needed && is_void(returns)) {
        return Err(wrong_kind(alloc, name));
    }
    if given != usize::from(params) {
        return Err(arg_count(alloc, name, given, params));
    }
    Ok(number)
}

impl<'a> Scope<'a> {
    ghost use Rattle.dsm_check.specs.BodyTables.{scope_of};

    /// An expression whose value is needed.
    #[cycle(expression)]
    pub fn expression(&self, e: &tree::Expression) -> Result<Expression, ProgErr>
        ensures { Gives view result (resolve (scope_of self.now).names (tree.view e.now)) }
    {
        match e {
            tree::Expression::Number(value) => Ok(Expression::Number(*value)),
            tree::Expression::Place(place) => Ok(Expression::Load(self.place(place)?)),
            tree::Expression::Paren(inner) => self.expression(inner),
            tree::Expression::Call(name, arguments) => self.call(true, name, arguments),
            tree::Expression::Unary(op, line, operand) => {
                let value = Box::new(self.alloc, self.expression(operand)?)?;
                Ok(Expression::Unary(*op, *line, value))
            }
            tree::Expression::Prefix(op, line, place) => {
                Ok(Expression::Prefix(*op, *line, self.place(place)?))
            }
            tree::Expression::Postfix(place, op, line) => {
                Ok(Expression::Postfix(self.place(place)?, *op, *line))
            }
            tree::Expression::Binary(a, op, line, b) => {
                let first = Box::new(self.alloc, self.expression(a)?)?;
                let second = Box::new(self.alloc, self.expression(b)?)?;
                Ok(Expression::Binary(first, *op, *line, second))
            }
            tree::Expression::Choice(test, _, then, other) => {
                let test = Box::new(self.alloc, self.expression(test)?)?;
                let then = Box::new(self.alloc, self.expression(then)?)?;
                let other = Box::new(self.alloc, self.expression(other)?)?;
                Ok(Expression::Choice(test, then, other))
            }
            tree::Expression::Assign(place, op, line, value) => {
                let location = self.place(place)?;
                let value = Box::new(self.alloc, self.expression(value)?)?;
                Ok(Expression::Assign(location, *op, *line, value))
            }
        }
    }

    /// What is loaded and stored to.
    #[cycle(expression)]
    fn place(&self, place: &Place) -> Result<Location, ProgErr>
        ensures { Gives view_location result (resolve_place (scope_of self.now).names
            (tree.view_place place.now)) }
    {
        match place {
            Place::Single(name) => as_single(self.alloc, name, self.used(name)?),
            Place::Element(name, index) => {
                let (sharing, array) = as_array(self.alloc, name, self.used(name)?)?;
                let index = Box::new(self.alloc, self.expression(index)?)?;
                Ok(Location::Element(sharing, array, index, name.line))
            }
        }
    }

    /// The arguments of a call.
    #[cycle(expression)]
    fn arguments(&self, arguments: &[tree::Expression]) -> Result<Vec<Expression>, ProgErr>
        ensures { Gives (λ made. views made.items) result (resolve_all (scope_of self.now).names
            (tree.views arguments.now)) }
    {
        let mut made = Vec::new(self.alloc);
        for argument in arguments {
            made.push(self.expression(argument)?)?;
        }
        Ok(made)
    }

    /// A call, by whether its value is needed.
    #[cycle(expression)]
    #[tactic(auto, using(crate::proofs::Collections::counted, crate::proofs::Shown::view_call))]
    fn call(
        &self,
        needed: bool,
        name: &Name,
        arguments: &[tree::Expression],
    ) -> Result<Expression, ProgErr>
        ensures { Gives view result (resolve_call needed (scope_of self.now).names name.now
            (tree.views arguments.now)) }
    {
        let named = self.used(name)?;
        let function = as_called(self.alloc, needed, name, arguments.len(), named)?;
        let values = self.arguments(arguments)?;
        Ok(Expression::Call(function, values, name.line))
    }

    /// An expression whose value isn't needed.
    pub fn effect(&self, e: &tree::Expression) -> Result<Expression, ProgErr>
        ensures { Gives view result (resolve_effect (scope_of self.now).names (tree.view e.now)) }
    {
        match e {
            tree::Expression::Call(name, arguments) => self.call(false, name, arguments),
            _ => self.expression(e),
        }
    }

    /// The expression, where there is one.
    pub fn optional_expression(
        &self,
        e: &Option<tree::Expression>,
    ) -> Result<Option<Expression>, ProgErr>
        ensures { Gives (tree.option_view view) result (optional (resolve (scope_of self.now).names)
            (tree.option_view tree.view e.now)) }
    {
        match e {
            None => Ok(None),
            Some(e) => Ok(Some(self.expression(e)?)),
        }
    }

    /// The expression, where there is one, whose value isn't needed.
    pub fn optional_effect(
        &self,
        e: &Option<tree::Expression>,
    ) -> Result<Option<Expression>, ProgErr>
        ensures { Gives (tree.option_view view) result
            (optional (resolve_effect (scope_of self.now).names)
            (tree.option_view tree.view e.now)) }
    {
        match e {
            None => Ok(None),
            Some(e) => Ok(Some(self.effect(e)?)),
        }
    }
}
