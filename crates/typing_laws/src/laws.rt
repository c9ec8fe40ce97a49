//! Laws, a module a subject.

pub mod declarations;
pub mod declarators;
pub mod initializers;
pub mod laid_out;
pub mod layouts;
pub mod places;
pub mod scopes;
pub mod spelled_types;
pub mod types;
pub mod validity;
pub mod violations;
