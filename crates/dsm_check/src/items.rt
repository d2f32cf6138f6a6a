//! The names of a file.

ghost use Rattle.std.specs.Prelude.{◌≡◌, ◌≤◌, ◌<◌, [], OnOk, IfOk, None};
ghost use Rattle.dsm_syntax.specs.Views.{view_params, view_function, view_item, view_items};
ghost use Rattle.dsm_check.specs.Environments.{meaning, extent};
ghost use Rattle.dsm_check.specs.Checks.{new, each};
ghost use Rattle.dsm_check.specs.FileNames.{size_of, params_of, with_cells, with_locks, with_barrier, with_function, with_item, file_names, most_cells, cells_limit};
ghost use Rattle.dsm_check.specs.Answers.{Gives};

use crate::limits::{natural, within};
use crate::names::{Named, Names};
use crate::refusal::{twice, wrong_kind};
use dsm_syntax::{Declarator, Function, Item, Name, Params, ProgErr, Sharing, Which};
use std::alloc::Global;

/// The size of a declared name.
fn size_of(alloc: Global, cell: &Declarator) -> Result<Option<u64>, ProgErr>
    ensures value { Gives (λ size. size) result (size_of cell.now.name cell.now.size) }
    ensures range { IfOk result (λ size. extent size ≤ 9223372036854775807) }
    ensures some { IfOk result (λ size. 0 < extent size) }
{
    let Some(size) = cell.size else {
        return Ok(None);
    };
    let size = natural(size);
    if size == 0 {
        return Err(wrong_kind(alloc, &cell.name));
    }
    Ok(Some(size))
}

/// How many there are of a size.
fn extent(size: Option<u64>) -> u64
    ensures { result ≡ extent size }
{
    size.unwrap_or(1)
}

/// The names between the parentheses.
pub fn params_of(params: &Params) -> &[Name]
    ensures { result.now ≡ params_of (view_params params.now) }
{
    match params {
        Params::Nothing | Params::Void => &[],
        Params::Names(names) => names.as_slice(),
    }
}

fn cells_limit(sharing: Sharing) -> Which
    ensures { result ≡ cells_limit sharing }
{
    match sharing {
        Sharing::Shared => Which::SharedCells,
        Sharing::Private => Which::PrivateCells,
    }
}

fn most_cells(sharing: Sharing) -> u32
    ensures { result ≡ most_cells sharing }
{
    match sharing {
        Sharing::Shared => 65_536,
        Sharing::Private => 16_384,
    }
}

/// The names that a file declares up to a place, and how many cells, locks, barriers and functions they are.
#[derive(Drop)]
pub struct Declared {
    pub names: Names,
    pub shared_cells: u32,
    pub private_cells: u32,
    pub locks: u16,
    pub barriers: u8,
    pub functions: u16,
}

impl Declared {
    ghost use Rattle.dsm_check.specs.FileTables.{names_of, AreCounted};

    /// Nothing.
    pub fn new(alloc: Global) -> Declared
        ensures names { names_of result.names ≡ [] }
        ensures counted { AreCounted result }
    {
        Declared {
            names: Names::new(alloc),
            shared_cells: 0,
            private_cells: 0,
            locks: 0,
            barriers: 0,
            functions: 0,
        }
    }

    /// Tests that a name is new.
    fn test_new(&self, alloc: Global, name: &Name) -> Result<(), ProgErr>
        ensures value { Gives (λ _. name.now.text) result (new (names_of self.now.names) name.now) }
        ensures absent { OnOk result (meaning (names_of self.now.names) name.now.text ≡ None) }
    {
        match self.names.get(name.text.as_slice()) {
            Some(_) => Err(twice(alloc, name)),
            None => Ok(()),
        }
    }

    fn cells(&mut self, alloc: Global, sharing: Sharing, cell: &Declarator) -> Result<(), ProgErr>
        requires { AreCounted self.old }
        ensures value { Gives (λ _. names_of self.new.names) result
            (with_cells sharing (names_of self.old.names) cell.now) }
        ensures counted { OnOk result (AreCounted self.new) }
    {
        self.test_new(alloc, &cell.name)?;
        let size = size_of(alloc, cell)?;
        let first = match sharing {
            Sharing::Shared => self.shared_cells,
            Sharing::Private => self.private_cells,
        };
        let count = u64::from(first) + extent(size);
        let count = within(cells_limit(sharing), most_cells(sharing), count)?;
        let size = size.map(|size| size as u32);
        let named = Named::Cells(sharing, first, size);
        self.names.add(alloc, cell.name.text.as_slice(), named)?;
        match sharing {
            Sharing::Shared => self.shared_cells = count,
            Sharing::Private => self.private_cells = count,
        }
        Ok(())
    }

    fn locks(&mut self, alloc: Global, lock: &Declarator) -> Result<(), ProgErr>
        requires { AreCounted self.old }
        ensures value { Gives (λ _. names_of self.new.names) result
            (with_locks (names_of self.old.names) lock.now) }
        ensures counted { OnOk result (AreCounted self.new) }
    {
        self.test_new(alloc, &lock.name)?;
        let size = size_of(alloc, lock)?;
        let count = u64::from(self.locks) + extent(size);
        let count = within(Which::Locks, 256, count)?;
        let size = size.map(|size| size as u16);
        let named = Named::Locks(self.locks, size);
        self.names.add(alloc, lock.name.text.as_slice(), named)?;
        self.locks = count as u16;
        Ok(())
    }

    fn barrier(&mut self, alloc: Global, barrier: &Name) -> Result<(), ProgErr>
        requires { AreCounted self.old }
        ensures value { Gives (λ _. names_of self.new.names) result
            (with_barrier (names_of self.old.names) barrier.now) }
        ensures counted { OnOk result (AreCounted self.new) }
    {
        self.test_new(alloc, barrier)?;
        let count = within(Which::Barriers, 64, u64::from(self.barriers) + 1)?;
        let named = Named::Barrier(self.barriers);
        self.names.add(alloc, barrier.text.as_slice(), named)?;
        self.barriers = count as u8;
        Ok(())
    }

    fn function(&mut self, alloc: Global, function: &Function) -> Result<(), ProgErr>
        requires { AreCounted self.old }
        ensures value { Gives (λ _. names_of self.new.names) result
            (with_function (names_of self.old.names) (view_function function.now)) }
        ensures counted { OnOk result (AreCounted self.new) }
    {
        self.test_new(alloc, &function.name)?;
        let count = within(Which::Functions, 256, u64::from(self.functions) + 1)?;
        let params = params_of(&function.params).len() as u64;
        let params = within(Which::Params, 16, params)?;
        let named = Named::Function {
            number: self.functions,
            returns: function.returns,
            params: params as u8,
        };
        self.names.add(alloc, function.name.text.as_slice(), named)?;
        self.functions = count as u16;
        Ok(())
    }

    fn all_cells(
        &mut self,
        alloc: Global,
        sharing: Sharing,
        cells: &[Declarator],
    ) -> Result<(), ProgErr>
        requires { AreCounted self.old }
        ensures value { Gives (λ _. names_of self.new.names) result
            (each (with_cells sharing) (names_of self.old.names) cells.now) }
        ensures counted { OnOk result (AreCounted self.new) }
    {
        for cell in cells {
            self.cells(alloc, sharing, cell)?;
        }
        Ok(())
    }

    fn all_locks(&mut self, alloc: Global, locks: &[Declarator]) -> Result<(), ProgErr>
        requires { AreCounted self.old }
        ensures value { Gives (λ _. names_of self.new.names) result
            (each with_locks (names_of self.old.names) locks.now) }
        ensures counted { OnOk result (AreCounted self.new) }
    {
        for lock in locks {
            self.locks(alloc, lock)?;
        }
        Ok(())
    }

    fn all_barriers(&mut self, alloc: Global, barriers: &[Name]) -> Result<(), ProgErr>
        requires { AreCounted self.old }
        ensures value { Gives (λ _. names_of self.new.names) result
            (each with_barrier (names_of self.old.names) barriers.now) }
        ensures counted { OnOk result (AreCounted self.new) }
    {
        for barrier in barriers {
            self.barrier(alloc, barrier)?;
        }
        Ok(())
    }

    fn item(&mut self, alloc: Global, item: &Item) -> Result<(), ProgErr>
        requires { AreCounted self.old }
        ensures value { Gives (λ _. names_of self.new.names) result
            (with_item (names_of self.old.names) (view_item item.now)) }
        ensures counted { OnOk result (AreCounted self.new) }
    {
        match item {
            Item::Data(sharing, cells) => self.all_cells(alloc, *sharing, cells.as_slice()),
            Item::Locks(locks) => self.all_locks(alloc, locks.as_slice()),
            Item::Barriers(barriers) => self.all_barriers(alloc, barriers.as_slice()),
            Item::Function(function) => self.function(alloc, function),
            Item::Bind(_) | Item::BindEach(_) | Item::BindBarrier(_) => Ok(()),
        }
    }

    /// The names that items declare, in the order of the text.
    pub fn from_items(alloc: Global, items: &[Item]) -> Result<Declared, ProgErr>
        ensures value { Gives (λ declared. names_of declared.names) result
            (file_names (view_items items.now)) }
        ensures counted { IfOk result AreCounted }
    {
        let mut declared = Declared::new(alloc);
        for item in items {
            declared.item(alloc, item)?;
        }
        Ok(declared)
    }
}
