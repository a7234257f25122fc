//! The script language: the bytes of one line, read as silence, an event or a report.
//!
//! A caller wants [`read_in`], [`Version`] and [`Line`]. The line is cut into words (`words`), the
//! first word says which form it has (`keywords`), and each form reads the words that are left
//! (`forms`, with `numbers`, `payload` and `attached`). `version` says which lines a script may
//! have. [`why`] says of another line what does not fit, and where (`explain`, with `misfit`).
//! `specs/Forms.antt` has the table of forms, and `specs/Says.antt` the lines that it
//! allows; [`laws`] says that exactly these are read.
#![tactic(auto)]

mod attached;
mod explain;
mod fault;
pub mod forms;
mod keywords;
pub mod laws;
mod line;
mod misfit;
mod numbers;
mod payload;
mod reason;
mod version;
mod words;

pub use explain::why;
pub use fault::LineFault;
pub use keywords::{Keyword, Verb};
pub use line::{Line, MAX_LINE, Report, line_of};
pub use reason::{Reason, Unreadable};
pub use version::{Version, keyword_in, read_in, verb_in};
pub use words::{is_end, only_word};
