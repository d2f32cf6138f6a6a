//! What the clauses mean, by examples.

mod jobs;
mod picks;
mod programs;
mod rounds;
mod schedules;
