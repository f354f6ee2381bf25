//! Worked examples, lists cut into pieces, windows of every size, and refused growths.
mod answers;
mod cuttings;
mod fixtures;
mod groups;
mod growing;
mod passes;
mod plain;
mod refusals;
mod shapes;
mod ties;
