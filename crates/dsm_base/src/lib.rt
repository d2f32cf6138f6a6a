//! Names, labels and traits that every part of `dsm` speaks of, and the machine of one memory.
#![tactic(auto)]

mod act;
mod big_endian;
mod errors;
mod files;
mod finished;
mod holders;
mod label;
mod lists;
mod mem_store;
mod names;
mod output;
mod pieces;
mod plan;
mod rights;
mod setup;
mod sink;
mod stack;
mod store;
mod task;
mod text;

pub use act::{Act, SchedErr};
pub use big_endian::{bytes_of_read_number, i64_at, put_i64, put_u16, put_u32, u16_at, u32_at};
pub use errors::{Digest, Failed, LoadErr, MemFault, ReadErr};
pub use files::{Files, MemFiles, NamedFile, NamedFiles};
pub use finished::{Finished, ending_after, finished_by, finished_where, is_ended};
pub use holders::{Holder, Holders, are_compatible};
pub use label::{Ending, Label, Want};
pub use lists::{
    BarNumber, BarNumbers, BarStand, BarStands, LockNumber, LockNumbers, LockStand, LockStands,
    LoggedGrant, LoggedGrants, LoggedOpening, LoggedOpenings, Pending, PendingLine, Procs, Record,
    Records, Turns,
};
pub use mem_store::MemStore;
pub use names::{Bar, Cell, Fault, Lock, Mode, Proc};
pub use output::{PrintedLines, fault_name, line_text, printed_line, turn_line};
pub use pieces::{Pieces, piece_at, pieces_of};
pub use plan::CallKind;
pub use rights::{Modes, Numbers, Rights};
pub use setup::{Bindings, Object, Piece, Setup};
pub use sink::{MemSink, Sink};
pub use stack::Stack;
pub use store::Store;
pub use task::{Task, TaskMaker};
pub use text::Text;
