// Fletcher's check with modulus 255. Sums of 32 bits hold 4,096 bytes before they must be reduced, so they are reduced once for
// each 4,096 and not at each byte.
#![tactic(auto)]

ghost use Rattle.std.specs.Prelude.{◌≡◌, ◌+◌, ◌≤◌, ◌<◌, length};
ghost use Rattle.layout.specs.Fletcher.{after, fletcher, sums as sums_at};

// The two sums.
#[derive(Clone, Copy, Debug, PartialEq, Eq)]
pub struct Sums {
    pub a: u32,
    pub b: u32,
}

impl Sums {
    // The sums after at most 4,096 further bytes.
    #[tactic(auto, using(layout::proofs::Fletcher::late_more))]
    fn after(self, bytes: &[u8]) -> Sums
        requires sums_reduced { (self.a < 255) × (self.b < 255) }
        requires few_bytes { length bytes.now ≤ 4096 }
        ensures reduced { (result.a < 255) × (result.b < 255) }
        ensures a { result.a ≡ (after (sums_at self.a self.b) bytes.now).a }
        ensures b { result.b ≡ (after (sums_at self.a self.b) bytes.now).b }
    {
        let Sums { mut a, mut b } = self;
        for byte in bytes {
            a += u32::from(*byte);
            b += a;
        }
        Sums {
            a: a % 255,
            b: b % 255,
        }
    }
}

// The sums over any bytes.
pub fn sums_of(bytes: &[u8]) -> Sums
    ensures a { result.a ≡ (fletcher bytes.now).a }
    ensures b { result.b ≡ (fletcher bytes.now).b }
{
    let mut done = Sums { a: 0, b: 0 };
    for part in bytes.chunks(4096) {
        done = done.after(part);
    }
    done
}
