/// Lets a value go.
pub(crate) fn let_go<T: Drop>(_value: T) {}
