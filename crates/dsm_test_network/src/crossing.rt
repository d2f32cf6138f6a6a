//! A thread that crosses a barrier: it shifts values through two epochs, or stores in an epoch too late.

ghost use Rattle.std.specs.Prelude.{◌≡◌};
ghost use Rattle.dsm_test_network.specs.Crossing.{tenfold, cells_of};

use dsm_base::{Bar, Cell, Fault, MemFault, Proc, Task, TaskMaker, Want};
use std::alloc::Global;

/// What the threads do.
#[derive(Clone, Copy, Debug, PartialEq, Eq)]
pub enum Course {
    /// Each stores to a cell of its own, and in the next epoch ten times its neighbour's value to a
    /// second one; in the third it prints its neighbour's second value.
    Shifts,
    /// Each crosses the barrier and stores to the first cell.
    StoresLate,
}

/// What the thread comes to next.
#[derive(Clone, Copy, Debug, PartialEq, Eq)]
pub enum Stage {
    Storing,
    Arriving,
    Crossing,
    Loading,
    Copying,
    ArrivingAgain,
    CrossingAgain,
    LoadingAgain,
    Printing,
    ArrivingOnce,
    CrossingOnce,
    StoringLate,
    Ending,
    Over,
}

/// The cells of a thread and of its neighbour, in the first epoch and in the second.
#[derive(Clone, Copy, Debug, PartialEq, Eq)]
pub struct Cells {
    own: Cell,
    next: Cell,
    copy: Cell,
    next_copy: Cell,
}

/// The thread, with the value that it stores first, and the one that it has loaded.
#[derive(Clone, Copy, Debug)]
pub struct Crosser {
    cells: Cells,
    value: i64,
    stage: Stage,
    loaded: i64,
}

/// Ten times a value that some thread stores first.
fn tenfold(value: i64) -> i64
    ensures { result ≡ tenfold value }
{
    match value {
        1 => 10,
        2 => 20,
        3 => 30,
        _ => 0,
    }
}

impl Stage {
    ghost use Rattle.dsm_test_network.specs.Crossing.{next_stage};

    fn next(self) -> Stage
        ensures { result ≡ next_stage self }
    {
        match self {
            Stage::Storing => Stage::Arriving,
            Stage::Arriving => Stage::Crossing,
            Stage::Crossing => Stage::Loading,
            Stage::Loading => Stage::Copying,
            Stage::Copying => Stage::ArrivingAgain,
            Stage::ArrivingAgain => Stage::CrossingAgain,
            Stage::CrossingAgain => Stage::LoadingAgain,
            Stage::LoadingAgain => Stage::Printing,
            Stage::ArrivingOnce => Stage::CrossingOnce,
            Stage::CrossingOnce => Stage::StoringLate,
            Stage::Printing | Stage::StoringLate => Stage::Ending,
            Stage::Ending | Stage::Over => Stage::Over,
        }
    }
}

impl Task for Crosser {
    type State = Crosser;

    ghost use Rattle.std.specs.Prelude.{Some};
    ghost use Rattle.dsm_test_network.specs.Crossing.{want_at, crosser_kind};

    ghost kind = { crosser_kind };

    ghost told = { λ crosser. Some (want_at crosser crosser.stage) };

    fn want(&mut self) -> Want {
        match self.stage {
            Stage::Storing => Want::Store(self.cells.own, self.value, 11),
            Stage::Arriving | Stage::ArrivingAgain | Stage::ArrivingOnce => Want::Arrive(Bar(0)),
            Stage::Crossing | Stage::CrossingAgain | Stage::CrossingOnce => Want::Cross(Bar(0)),
            Stage::Loading => Want::Load(self.cells.next, 11),
            Stage::Copying => Want::Store(self.cells.copy, tenfold(self.loaded), 11),
            Stage::LoadingAgain => Want::Load(self.cells.next_copy, 11),
            Stage::Printing => Want::Line,
            Stage::StoringLate => Want::Store(self.cells.own, self.value, 6),
            Stage::Ending => Want::End,
            Stage::Over => Want::Over,
        }
    }

    fn done(&mut self, answer: i64) {
        if let Stage::Loading | Stage::LoadingAgain = self.stage {
            self.loaded = answer;
        }
        self.stage = self.stage.next();
    }

    fn stop(&mut self, _fault: Fault) {
        self.stage = Stage::Over;
    }

    fn text(&self) -> &[u8] {
        match self.loaded {
            10 => b"10",
            20 => b"20",
            30 => b"30",
            _ => b"another",
        }
    }
}

/// The cells of a processor and of its neighbour, of so many.
fn cells_of(me: Proc, procs: u8) -> Cells
    ensures { result ≡ cells_of procs me.0 }
{
    let own = u32::from(me.0);
    let all = u32::from(procs);
    let next = if own + 1 < all { own + 1 } else { 0 };
    Cells {
        own: Cell(own),
        next: Cell(next),
        copy: Cell(all + own),
        next_copy: Cell(all + next),
    }
}

impl Course {
    ghost use Rattle.dsm_test_network.specs.Crossing.{first_of_course};

    /// The thread of a processor before its first step, of so many.
    fn first(self, me: Proc, procs: u8) -> Crosser
        ensures { result ≡ first_of_course self procs me.0 }
    {
        match self {
            Course::Shifts => Crosser {
                cells: cells_of(me, procs),
                value: i64::from(me.0) + 1,
                stage: Stage::Storing,
                loaded: 0,
            },
            Course::StoresLate => Crosser {
                cells: Cells {
                    own: Cell(0),
                    next: Cell(0),
                    copy: Cell(0),
                    next_copy: Cell(0),
                },
                value: 1,
                stage: Stage::ArrivingOnce,
                loaded: 0,
            },
        }
    }
}

/// Threads of one course.
#[derive(Clone, Copy, Debug)]
pub struct Crossers {
    pub course: Course,
}

impl TaskMaker for Crossers {
    type Made = Crosser;

    ghost use Rattle.dsm_test_network.specs.Crossing.{first_crosser};
    ghost use Rattle.dsm_test_network.specs.CrossingLaws.{crosses_first};

    ghost first = { first_crosser };

    fn start(&self, _alloc: Global, me: Proc, procs: u8) -> Result<Crosser, MemFault> {
        Ok(self.course.first(me, procs))
    }

    ghost asks_first = { λ maker procs me. crosses_first maker procs me };
}
