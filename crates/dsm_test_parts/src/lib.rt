//! The parts of processors through their public calls: lines, messages, locks at their homes, barriers at their
//! managers, images.
#![tactic(auto)]

#[cfg(test)]
mod images;
#[cfg(test)]
mod lines;
#[cfg(test)]
mod locks;
#[cfg(test)]
mod managers;
#[cfg(test)]
mod messages;
