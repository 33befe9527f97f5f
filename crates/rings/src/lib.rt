//! First in, first out, over lent places; one text for every copied element.
#![tactic(auto)]

ghost use Rattle.std.specs.Prelude.{◌≡◌, ◌≤◌, false, [], ◌∷◌, ◌++◌, length, is_some, is_ok, IfErr, if◌then◌else◌, ◌==◌, nat_lt};
ghost use Rattle.std.specs.Option.{option_to_list};

use refusals::Refusal;

pub mod moves;

// The oldest element is at `head`, and the others follow it, from the end of the places to their start.
/// A queue over lent places: what is pushed first is popped first. It takes no memory.
#[derive(Drop)]
pub struct Ring<'a, T: Copy> {
    places: &'a mut [T],
    head: usize,
    len: usize,
    ghost within: { (len ≤ length places.now) × (head ≤ length places.now) },
}

impl<'a, T: Copy> Ring<'a, T> {
    ghost use Rattle.rings.specs.Held.{held, room};

    /// An empty ring over the places.
    #[tactic(auto, unfolding(crate::specs::Held::held, crate::specs::Held::room))]
    pub fn new(places: &'a mut [T]) -> Ring<'a, T>
        ensures holds { held result ≡ [] }
        ensures size { room result ≡ length places.old }
    {
        Ring {
            places,
            head: 0,
            len: 0,
        }
    }

    /// How many elements the ring holds, never more than it has places.
    #[tactic(auto, using(crate::proofs::Turns::length_items), unfolding(crate::specs::Held::held, crate::specs::Held::room))]
    pub fn len(&self) -> usize
        ensures value { result ≡ length (held self.now) }
        ensures bound { result ≤ room self.now }
    {
        self.len
    }

    /// Whether the ring holds nothing.
    pub fn is_empty(&self) -> bool
        ensures { result ≡ (length (held self.now) == 0) }
    {
        self.len() == 0
    }

    /// Adds at the back. A full ring refuses, and is left as it was; a place that a pop has freed is used again.
    #[tactic(auto, using(crate::proofs::Turns::length_items), unfolding(crate::specs::Held::held, crate::specs::Held::room))]
    pub fn push(&mut self, x: T) -> Result<(), Refusal>
        ensures holds { held self.new ≡ (if is_ok result then held self.old ++ x ∷ [] else held self.old) }
        ensures test { is_ok result ≡ nat_lt (length (held self.old)) (room self.old) }
        ensures reason { IfErr result (λ e. e ≡ Refusal.TooShort) }
        ensures size { room self.new ≡ room self.old }
        ensures refused { is_ok result ≡ false → self.new ≡ self.old }
    {
        let size = self.places.len();
        if self.len == size {
            return Err(Refusal::TooShort);
        }
        let back = size - self.head;
        let at = if self.len < back {
            self.head + self.len
        } else {
            self.len - back
        };
        self.places[at] = x;
        self.len += 1;
        Ok(())
    }

    /// Takes the oldest away; nothing from an empty ring.
    #[tactic(auto, using(crate::proofs::Turns::length_items), unfolding(crate::specs::Held::held, crate::specs::Held::room))]
    pub fn pop(&mut self) -> Option<T>
        ensures holds { held self.old ≡ option_to_list result ++ held self.new }
        ensures test { is_some result ≡ nat_lt 0 (length (held self.old)) }
        ensures size { room self.new ≡ room self.old }
        ensures empty { is_some result ≡ false → self.new ≡ self.old }
    {
        if self.len == 0 {
            return None;
        }
        let at = if self.head < self.places.len() {
            self.head
        } else {
            0
        };
        let x = self.places[at];
        self.head = at + 1;
        self.len -= 1;
        Some(x)
    }
}
