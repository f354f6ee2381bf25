//! A live preference table behind a handle, for programs of other languages. library/include/prefq.h is made of these calls.
//!
//! A [`Handle`] has a table or none. Each call takes and leaves it whole: what a contract says of the table that it had and the one that it has is what the
//! caller may rely on, from its opening on.
#![tactic(auto)]

mod acts;
mod answer;
mod changes;
mod ended;
mod fault;
mod handle;
mod lines;
mod opening;
mod queries;
mod rows;
mod sizes;
mod table;
