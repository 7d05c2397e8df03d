// Bytes written over a part of a lent buffer. What has no room is not written.
#![tactic(auto)]

ghost use Rattle.std.specs.Prelude.{◌≡◌, ◌+◌, leb, length};
ghost use Rattle.buffers.specs.Laid.{Laid};

// A lent buffer, and the place where the next piece goes.
#[derive(Drop)]
pub struct Sheet<'a> {
    pub out: &'a mut [u8],
    pub at: usize,
}

impl<'a> Sheet<'a> {
    // A buffer that is written from its start on.
    pub fn new(out: &'a mut [u8]) -> Sheet<'a>
        ensures { result ≡ record { out = out.entry; at = 0 } }
    {
        Sheet { out, at: 0 }
    }

    // Whether so many bytes have room.
    #[inline]
    pub fn has_room(&self, n: usize) -> bool
        ensures { result ≡ leb (self.now.at + n) (length self.now.out.now) }
    {
        self.at <= self.out.len() && n <= self.out.len() - self.at
    }

    // Bytes as they are, and the place after them.
    #[inline]
    pub fn put(&mut self, s: &[u8])
        ensures { Laid s.now self.old self.new }
    {
        if self.has_room(s.len()) {
            let end = self.at + s.len();
            self.out[self.at..end].copy_from_slice(s);
            self.at = end;
        }
    }
}
