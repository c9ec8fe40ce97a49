//! Members of structures and unions (C99 6.7.2.1).

use crate::c_type::CType;

/// A member of a structure or union.
#[derive(Drop)]
pub struct Member {
    /// Its type.
    pub c_type: CType,
    /// Its place in the structure, in bytes.
    pub offset: u64,
    /// Its bytes.
    pub size: u64,
}
