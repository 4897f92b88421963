//! Keys that were seen, by bits at three places of each key: its low half, its high half, and the two xor-ed, each among bits of its own.
ghost use Rattle.std.specs.Prelude.{◌≡◌, ◌↔◌, ℕ, ◌/◌, ◌%◌, ◌==◌, ◌||◌, IsTrue, bit_xor};
ghost use Rattle.audit_types.specs.Words.{has_bit};
ghost use Rattle.sum_basis.specs.Keys.{IsSeen};

/// The bits of keys. Those of a key that wasn't seen may all be set too, though seldom.
#[derive(Drop)]
pub(crate) struct Seen {
    low: [u64; 1024],
    high: [u64; 1024],
    both: [u64; 1024],
}

fn has_place(words: &[u64; 1024], place: u16) -> bool
    ensures { result ≡ has_bit words.now place }
{
    let word = words[(place / 64) as usize];
    (word >> (place % 64)) & 1 == 1
}

fn set_place(words: &mut [u64; 1024], place: u16)
    ensures { (r : ℕ) → has_bit words.new r ≡ (has_bit words.old r || r == place) }
{
    let k = (place / 64) as usize;
    words[k] |= 1u64 << (place % 64);
}

fn low_half(key: u32) -> u16
    ensures { result ≡ key % 65536 }
{
    (key % 65536) as u16
}

fn high_half(key: u32) -> u16
    ensures { result ≡ key / 65536 }
{
    (key / 65536) as u16
}

impl Seen {
    /// No key was seen.
    pub fn new() -> Seen
        ensures { (key : ℕ) → ¬ (IsSeen result key) }
    {
        Seen {
            low: [0; 1024],
            high: [0; 1024],
            both: [0; 1024],
        }
    }

    /// Whether the three bits of the key are set. If it was seen, they are.
    pub fn has(&self, key: u32) -> bool
        ensures { IsTrue result ↔ IsSeen self.now key }
    {
        let low = low_half(key);
        let high = high_half(key);
        has_place(&self.low, low)
            && has_place(&self.high, high)
            && has_place(&self.both, low ^ high)
    }

    /// Sets the three bits of the key.
    pub fn add(&mut self, key: u32)
        ensures added { IsSeen self.new key }
        ensures stay { (seen : ℕ) → IsSeen self.old seen → IsSeen self.new seen }
    {
        let low = low_half(key);
        let high = high_half(key);
        set_place(&mut self.low, low);
        set_place(&mut self.high, high);
        set_place(&mut self.both, low ^ high);
    }
}
