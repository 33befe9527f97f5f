//! Lent bytes that are written piece by piece: each piece goes where the last one ended, if there is room for it, and is
//! only counted if not.
#![tactic(auto)]

ghost use Rattle.std.specs.Prelude.{◌≡◌, ◌+◌, ◌<◌, length, min};
ghost use Rattle.outputs.specs.Puts.{Puts};

/// Lent bytes, and how many bytes were put so far, which is the place of the next piece. It takes no memory.
#[derive(Drop)]
pub struct Output<'a> {
    bytes: &'a mut [u8],
    count: usize,
}

impl<'a> Output<'a> {
    /// Nothing is put yet.
    pub fn new(bytes: &'a mut [u8]) -> Output<'a>
        ensures same { result.bytes.ghost_name ≡ bytes.entry.ghost_name }
        ensures bytes { result.bytes.now ≡ bytes.old }
        ensures count { result.count ≡ 0 }
    {
        Output { bytes, count: 0 }
    }

    /// Puts a piece whole behind those before it, if there is room for it; if not, only counts its bytes. The count stops at
    /// the highest number.
    pub fn put(&mut self, piece: &[u8])
        ensures puts { Puts self.old self.new piece.now }
        ensures count { self.new.count ≡ min (self.old.count + length piece.now) usize.MAX }
        ensures no_room { length self.old.bytes.now < self.old.count + length piece.now → self.new.bytes.now ≡ self.old.bytes.now }
    {
        let Output { bytes, count } = self;
        let next = count.saturating_add(piece.len());
        if next <= bytes.len() {
            bytes[*count..next].copy_from_slice(piece);
        }
        *count = next;
    }

    /// How many bytes were put, those counted that found no room.
    pub fn len(&self) -> usize
        ensures { result ≡ self.now.count }
    {
        self.count
    }
}

#[cfg(test)]
mod tests {
    use super::*;

    #[test]
    fn pieces_follow_one_another(rt: HostRuntime) {
        let mut bytes = *b".......";
        let mut output = Output::new(&mut bytes);
        output.put(b"one");
        output.put(b"");
        output.put(b"two");
        assert_eq!(rt; output.len(), 6);
        assert_eq!(rt; bytes, *b"onetwo.");
    }

    #[test]
    fn what_finds_no_room_is_counted(rt: HostRuntime) {
        let mut bytes = *b"....";
        let mut output = Output::new(&mut bytes);
        output.put(b"one");
        output.put(b"two");
        output.put(b"x");
        assert_eq!(rt; output.len(), 7);
        assert_eq!(rt; bytes, *b"one.");
        let mut none = Output::new(&mut []);
        none.put(b"three");
        assert_eq!(rt; none.len(), 5);
    }
}
