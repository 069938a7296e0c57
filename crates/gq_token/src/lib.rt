//! Cuts the bytes of a script into tokens.
//!
//! A script is cut from the left into gaps and tokens, each the longest prefix of the rest that is spelled as one.
//! `specs/Spelling.antt` defines what a whole text spells, `specs/Cut.antt` the cut of a script, and
//! `specs/Faults.antt` where and why a text can't be cut: read them in this order. `specs/Lines.antt` and
//! `specs/Nesting.antt` define the line of a place and how deeply the tokens nest. `specs/Class.antt` and
//! `specs/Items.antt` are only for the code, which dispatches on the first two bytes of an item (`item.rt`) and has a
//! file for each kind. All of it takes time linear in the bytes.
#![tactic(auto)]

mod class;
mod comments;
mod cut;
mod fault;
mod item;
mod laws;
mod lines;
mod nesting;
mod numbers;
mod symbols;
mod texts;
mod token;
mod words;

pub use cut::tokens;
pub use fault::LexFault;
pub use laws::one_fault;
pub use lines::line_of;
pub use nesting::too_deep;
pub use token::{Token, TokenKind};
