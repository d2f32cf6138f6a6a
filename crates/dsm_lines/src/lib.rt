//! Lines: bound cells cut into eights, the table of where they are, marks on them, copies of their
//! values.
#![tactic(auto)]

mod bits;
mod copy;
mod image;
mod list;
mod marks;
mod of_objects;
mod pages;
mod place;
mod table;

pub use copy::OwnCopy;
pub use image::LineImage;
pub use list::{Line, LineList, LineValues};
pub use marks::{DirtyBits, LineNumbers};
pub use of_objects::{
    Arrival, ArrivalList, Grant, Grants, MailGrant, MailGrants, MailOpening, MailOpenings, Opening,
    Openings, Version, Versions,
};
pub use place::{Place, Span};
pub use table::BindTable;
