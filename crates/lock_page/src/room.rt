//! The caller's room for texts.

/// Room in which texts are written one behind the other.
#[derive(Drop)]
pub(crate) struct Room<'a> {
    bytes: &'a mut [u8],
    used: usize,
}

impl<'a> Room<'a> {
    pub(crate) fn new(bytes: &'a mut [u8]) -> Room<'a> {
        Room { bytes, used: 0 }
    }

    /// Writes a text, if there is room for it, and returns how many bytes it has.
    pub(crate) fn put(&mut self, text: &str) -> u64 {
        let end = self.used.saturating_add(text.len());
        if let Some(part) = self.bytes.get_mut(self.used..end) {
            part.copy_from_slice(text.as_bytes());
            self.used = end;
        }
        text.len() as u64
    }
}
