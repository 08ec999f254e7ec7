// The end of a line that is being made.
ghost use Rattle.std.specs.Prelude.{◌≡◌, ◌+◌, ◌^◌, ◌<◌, ◌≤◌, [], ◌∷◌, ◌++◌, length, take, drop, Some, decimal, MatchResult};

use values::refusal::Refusal;
use wire_format::line::LONGEST;

// The last bytes of a line, those from `start` on. A line is made from its last byte to its first, as the digits of a number
// come. Writing takes nothing from the heap, so they stand in an array.
#[derive(Drop)]
pub struct Tail {
    bytes: [u8; LONGEST],
    start: usize,
    ghost sized: { length bytes ≡ 80 },
    ghost within: { start ≤ 80 },
}

impl Tail {
    ghost use Rattle.values.specs.declared.refusal.Refusal.TheVariants.{Rows};
    ghost use Rattle.wire_format.specs.Format.{glued};
    ghost use Rattle.wire_format.specs.Writing.{writing, over};
    ghost use Rattle.wire_write.specs.Tails.{made, Grown};

    // Nothing is made yet.
    pub fn empty() -> Tail
        ensures none { made result ≡ [] }
        ensures start { result.start ≡ 80 }
    {
        Tail {
            bytes: [0; LONGEST],
            start: LONGEST,
        }
    }

    // One byte more, in front.
    pub fn put(&mut self, byte: u8)
        requires { 1 ≤ self.old.start }
        ensures made { made self.new ≡ byte ∷ made self.old }
        ensures start { self.new.start + 1 ≡ self.old.start }
    {
        self.start -= 1;
        self.bytes[self.start] = byte;
    }

    // The digits of a count.
    #[tactic(auto, using(crate::proofs::Digits::digit_steps))]
    pub fn put_digits(&mut self, n: u32)
        requires short { n < 10 ^ 9 }
        requires room { 9 ≤ self.old.start }
        ensures made { made self.new ≡ decimal n ++ made self.old }
        ensures near { self.old.start ≤ self.new.start + 9 }
    {
        let mut rest = n;
        while rest >= 10 {
            self.put(b'0' + (rest % 10) as u8);
            rest /= 10;
        }
        self.put(b'0' + rest as u8);
    }

    // A letter, and the byte that ends it.
    pub fn put_letter(&mut self, letter: u8, end: u8)
        requires { 2 ≤ self.old.start }
        ensures { Grown self.old (glued end (Some (letter ∷ [])) (Some (made self.old))) 2 self.new }
    {
        self.put(end);
        self.put(letter);
    }

    // Copies the bytes to the front of `out`, which has room for the longest line, and says how many they are.
    fn copy_to(&self, out: &mut [u8]) -> usize
        requires { 80 ≤ length out.old }
        ensures size { result ≡ length (made self.now) }
        ensures bytes { out.new ≡ made self.now ++ drop (length (made self.now)) out.old }
        ensures text { take result out.new ≡ made self.now }
        ensures within { result ≤ 80 }
    {
        let size = LONGEST - self.start;
        out[0..size].copy_from_slice(&self.bytes[self.start..]);
        size
    }

    // The same, unless `out` has no room for the longest line.
    pub fn place(&self, out: &mut [u8]) -> Result<usize, Refusal>
        ensures answer { result ≡ writing (Some (made self.now)) out.old }
        ensures bytes { out.new ≡ over (Some (made self.now)) out.old }
        ensures cases { MatchResult result (λ size. (take size out.new ≡ made self.now) × (size ≤ 80)) (λ e. (e ≡ Rows) × (length out.old < 80)) }
    {
        if out.len() < LONGEST {
            return Err(Refusal::Rows);
        }
        Ok(self.copy_to(out))
    }
}
