// The caller's working bytes, while a clear payload may stand in them.
ghost use Rattle.std.specs.Prelude.{◌≡◌, length, replicate};

pub(crate) fn clear(bytes: &mut [u8])
    ensures { bytes.new ≡ replicate (length bytes.old) 0 }
{
    bytes.fill(0);
}

// Holds working bytes, and clears them at its end unless they are kept.
pub struct WorkingBytes<'a> {
    pub bytes: &'a mut [u8],
}

impl Drop for WorkingBytes<'_> {
    fn drop(self)
        ensures { self.exit.0.now ≡ replicate (length self.entry.bytes.now) 0 }
    {
        clear(self.bytes);
        let WorkingBytes { bytes: _ } = self;
    }
}

impl WorkingBytes<'_> {
    // Lets the bytes go as they are.
    pub fn keep(self)
        ensures { self.exit.0.now ≡ self.entry.bytes.now }
    {
        let WorkingBytes { bytes: _kept } = self;
    }
}
