//! Reports of an engine as text: a table, the totals of users, a check, and a picture in the
//! language of Graphviz.
pub use af_report::{Checked, check, count, graph, table, totals};
