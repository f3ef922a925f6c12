// The operation Join of document 02, (x): a course library joined to a lesson.
#![tactic(auto)]

pub mod join;
pub mod library;
pub mod names;
pub mod sources;
pub mod text;
