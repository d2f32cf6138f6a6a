//! Fields of which values are spelled in bytes: readers, writers, and what it is to read exactly.
#![tactic(auto)]

mod error;
mod read;
mod write;

pub use error::FieldErr;
pub use read::{
    byte, flag, is_from, is_over, is_second_over, keeps, mode, number, printed, short_number,
    signed, text,
};
pub use write::{
    put_byte, put_count, put_flag, put_length, put_mode, put_number, put_short, put_signed,
};
