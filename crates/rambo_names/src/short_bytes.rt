//! A few bytes, stored inline.
ghost use Rattle.std.specs.Prelude.{◌≡◌, ◌≤◌, length, take};

/// How many bytes there may be.
pub(crate) const MOST: usize = 15;

// At most 15 bytes, stored inline.
#[derive(Clone, Copy)]
pub(crate) struct ShortBytes {
    // It holds nothing: it aligns the value, so that it is moved as two whole words.
    words: [u64; 0],
    length: u8,
    // What comes after the bytes has no meaning.
    bytes: [u8; MOST],
    ghost few: { length ≤ 15 },
}

impl ShortBytes {
    ghost use Rattle.rambo_names.specs.ShortForms.{short_bytes};

    // The first bytes of an array.
    pub(crate) fn new(bytes: [u8; MOST], length: usize) -> ShortBytes
        requires { length ≤ 15 }
        ensures { short_bytes result ≡ take length bytes }
    {
        ShortBytes {
            words: [],
            length: length as u8,
            bytes,
        }
    }

    // A copy of these bytes.
    pub(crate) fn of(items: &[u8]) -> ShortBytes
        requires { length items.now ≤ 15 }
        ensures { short_bytes result ≡ items.now }
    {
        let mut bytes = [0; MOST];
        bytes[..items.len()].copy_from_slice(items);
        ShortBytes::new(bytes, items.len())
    }

    // The bytes.
    pub(crate) fn as_slice(&self) -> &[u8]
        ensures { result.now ≡ short_bytes self.now }
    {
        &self.bytes[..self.length as usize]
    }
}
