//! Machines for code, which take no memory once they have started.
#![tactic(auto)]

mod cell_steps;
mod finish;
mod frame;
mod jump_steps;
mod lock_steps;
mod machine;
mod print;
mod room_stack;
mod slots;
mod standing;
mod step;
mod value_steps;

pub use frame::{Frame, new_frame, spare_frames};
pub use machine::{Life, MOST_DEPTH, Machine};
pub use print::Line;
pub use room_stack::RoomStack;
pub use slots::Slots;
pub use standing::{stand, write_line};
