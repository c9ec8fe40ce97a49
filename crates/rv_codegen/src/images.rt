//! The image of a program: its generated code, and what the two data segments have at the start, as an executable file.
//!
//! `specs/Image` says which segments these are (docs/FORMATS.md, "The image"), and that the machine of the loaded image
//! stands at its start.

pub mod image;
pub mod laws;
pub mod loading;

pub use crate::images::image::image_of;
pub use crate::images::loading::machine_of;
