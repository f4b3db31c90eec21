use std::alloc::{AllocError, Global};

/// A value that is leaked: no test lets it go. What is known of it is let go here.
pub fn leak<'a, T: Drop + 'a>(alloc: Global, value: T) -> Result<&'a mut T, AllocError> {
    Ok(Box::leak(Box::new(alloc, value)?))
}
