//! Values that are of no more use. The function is generic, since the proof of a drop writes out the whole type unless
//! the type is a parameter.

/// Lets a value go.
pub(crate) fn let_go<T: Drop>(value: T) {
    let _ = value;
}
