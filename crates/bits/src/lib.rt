// A bit cursor over bytes, most significant bit first. The specification is specs/Fields.antt: the bits of a list of bytes are
// one list, `take` reads a run of it as a number, and `put` writes a number as a run of it and changes no other bit.
#![tactic(auto)]

ghost use Rattle.std.specs.Prelude.{◌≡◌, ◌+◌, ◌-◌, ◌*◌, ◌%◌, ◌^◌, ◌≤◌, ◌<◌, true, false, [], ◌∷◌, length, replicate};
ghost use Rattle.bits.specs.Bits.{digits};
ghost use Rattle.bits.specs.Fields.{bits_at, field_at, Wrote};
ghost use Rattle.bits.specs.inner.Stand.{BitsStand};

// A place in a run of bits. A cursor goes by value and its reading hands back the field and the next cursor: the form that the scope asks for.
#[derive(Clone, Copy)]
pub struct Cursor {
    pub at: usize,
}

// What was read, and the place after it.
#[derive(Clone, Copy)]
pub struct Field<T> {
    pub value: T,
    pub next: Cursor,
}

// The place of bit `at` in its byte.
fn mask(at: usize) -> u8
    ensures { result ≡ 2 ^ (7 - at % 8) }
{
    1 << (7 - at % 8)
}

// The bit at `at`.
fn bit(s: &[u8], at: usize) -> bool
    requires { at < 8 * length s.now }
    ensures { bits_at s.now at 1 ≡ result ∷ [] }
{
    s[at / 8] & mask(at) != 0
}

// Sets the bit at `at` to b.
fn set_bit(buf: &mut [u8], at: usize, b: bool)
    requires { at < 8 * length buf.old }
    ensures { Wrote buf.old buf.new at (at + 1) (b ∷ []) }
{
    if b {
        buf[at / 8] |= mask(at);
    } else {
        buf[at / 8] &= !mask(at);
    }
}

impl Cursor {
    // The place `width` bits further on.
    fn after(self, width: usize) -> Cursor
        requires { self.at + width < 2 ^ 64 }
        ensures { result.at ≡ self.at + width }
    {
        let at = self.at + width;
        Cursor { at }
    }

    // The field of `width` bits from here on.
    pub fn take(self, s: &[u8], width: usize) -> Field<u32>
        requires { (self.at + width ≤ 8 * length s.now) × (self.at + width < 2 ^ 64) × (width ≤ 32) }
        ensures { (result.value ≡ field_at s.now self.at width) × (result.next.at ≡ self.at + width) }
    {
        let mut value: u32 = 0;
        for i in 0..width {
            value = value * 2 + u32::from(bit(s, self.at + i));
        }
        let next = self.after(width);
        Field { value, next }
    }

    // Writes `value` as a field of `width` bits from here on.
    pub fn put(self, buf: &mut [u8], width: usize, value: u32) -> Cursor
        requires { (self.at + width ≤ 8 * length buf.old) × (self.at + width < 2 ^ 64) × (width ≤ 32) × (value < 2 ^ width) }
        ensures { Wrote buf.old buf.new self.at result.at (digits width value) × (result.at ≡ self.at + width) }
    {
        for i in 0..width {
            let b = (value >> (width - 1 - i)) % 2 == 1;
            set_bit(buf, self.at + i, b);
        }
        self.after(width)
    }

    // Writes 0 in every bit from here up to bit `to`.
    pub fn pad(self, buf: &mut [u8], to: usize) -> Cursor
        requires { (self.at ≤ to) × (to ≤ 8 * length buf.old) }
        ensures { Wrote buf.old buf.new self.at to (replicate (to - self.at) false) × (result.at ≡ to) }
    {
        for at in self.at..to {
            set_bit(buf, at, false);
        }
        Cursor { at: to }
    }

    // Whether every bit from here up to bit `to` is 0.
    pub fn blank(self, s: &[u8], to: usize) -> bool
        requires { (self.at ≤ to) × (to ≤ 8 * length s.now) }
        ensures bits_stand { result ≡ true → BitsStand s.now self.at to (replicate (to - self.at) false) }
        ensures value { BitsStand s.now self.at to (replicate (to - self.at) false) → result ≡ true }
    {
        !(self.at..to).any(|at| bit(s, at))
    }
}
