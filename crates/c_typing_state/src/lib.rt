//! What typing carries from token to token: what stands for names, and what the typed program needs of the text so far
//! (C99 6.2, 6.5, 6.7).
#![tactic(auto)]

pub mod typer;

pub use crate::typer::{Literal, Typer};
