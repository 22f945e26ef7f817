//! Values that stay as they are.
use std::mem::ManuallyDrop;

/// Forgets a value, which need not be `Drop`: a token stays held.
///
/// # Safety
/// It breaks no memory. It is `unsafe` since a type without `Drop` promises that its value is used: whoever forgets one says
/// at the call why that is right.
pub unsafe fn forget<T>(value: T) {
    let _forgotten = unsafe { ManuallyDrop::new_unchecked(value) };
}
