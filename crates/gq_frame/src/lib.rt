//! The frame of a running query: the values of its variables and sets, and the contents of its accumulators.
//!
//! A plan has numbers for names: a variable or set is a place of the frame, an accumulator a slot. A global
//! accumulator has one target and a vertex accumulator one for each vertex; all targets form one array, in pages that
//! copies share. When a body ends, an undo log restores what its names had hidden.
//!
//! Read `specs/Shows.antt` first: when a frame represents a state of the definitions. Then read
//! `specs/Names.antt`, `specs/Slots.antt`, `specs/Targets.antt`, `specs/Pages.antt` and `specs/Lives.antt`.
//! `src/frame.rt` has the frame, `src/accums.rt` and `src/pages.rt` the contents, `src/live.rt` the undo log.
#![tactic(auto)]

mod accums;
mod filling;
mod frame;
mod ints;
mod live;
mod names;
mod page;
mod pages;
mod single;
mod slot_places;
mod slots;

pub use accums::Accums;
pub use frame::{Alias, Bound, Frame, Thing};
pub use live::{Live, Undo};
pub use names::{named, set_at};
pub use pages::Pages;
pub use slot_places::read_target;
pub use slots::{Slots, targets};
