//! The grammar of scripts: from bytes to a program, and from a program to its canonical text.
//!
//! It stands on `script_text` for the words of a text. The layers above use `parse`, which answers
//! exactly `grammar` of `specs/Grammar.antt`: the program that a text is, or the line and the cause
//! of its first fault; and `show`, which answers `canon` of `specs/Canon.antt`. They see a program
//! as a `Tree` of `specs/Tree.antt`, and each `Program` is well-formed: what that means is
//! `IsWellFormed` of `specs/WellFormed.antt`.
//!
//! A line form has one row in each of these tables: its variant, its word and its parts
//! (`form.rt`, `specs/Forms.antt`), what is read (`statement.rt`, `opening.rt` or `line.rt`, with
//! `specs/Lines.antt`), where it may stand (`opener.rt`), what it does (`taking.rt` and
//! `closing.rt`, all in `specs/Reading.antt`), and how it is written (`plain.rt` or `bracket.rt`).
#![tactic(auto)]

mod behind;
mod bracket;
mod canonical;
mod cause;
mod class;
mod closing;
mod counts;
mod fault;
mod form;
mod judging;
mod layout;
mod level;
mod line;
mod named;
mod names;
mod new_name;
mod open;
mod opener;
mod opening;
mod parsing;
mod part;
mod plain;
mod program;
mod reading;
mod refusal;
mod row;
mod showing;
mod spelling;
mod statement;
mod taking;
mod telling;
mod thing;

pub use canonical::show;
pub use parsing::parse;
pub use program::{
    Block, CompRef, Decl, EventTree, Kind, Name, Operand, Places, Program, Stmt, Test, Text, most,
};
pub use refusal::{ParseRefusal, Refused};
