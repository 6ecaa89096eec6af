// Bytes and numbers put one after the other into a slice that the caller lends.
#![tactic(auto)]

ghost use Rattle.std.specs.Prelude.{◌≡◌};
ghost use Rattle.script.specs.Text.{digits, numbers_text};

// The slice, and the place in it where what comes next is written. Later bytes stay as they are.
#[derive(Drop)]
pub struct Output<'a> {
    pub bytes: &'a mut [u8],
    pub at: usize,
}

impl<'a> Output<'a> {
    ghost use Rattle.put.specs.Wrote.{Room, Wrote};

    // A slice, from its front on.
    pub fn new(bytes: &'a mut [u8]) -> Output<'a>
        ensures { (result.bytes ≡ bytes.entry) × (result.at ≡ 0) }
    {
        Output { bytes, at: 0 }
    }

    // Some bytes.
    pub fn bytes(&mut self, s: &[u8])
        requires { Room s.now self.old }
        ensures { Wrote s.now self.old self.new }
    {
        let end = self.at + s.len();
        self.bytes[self.at..end].copy_from_slice(s);
        self.at = end;
    }

    // A number. The place is counted down by hand: a recursion over the digits is a third slower.
    pub fn number(&mut self, n: u32)
        requires { Room (digits n) self.old }
        ensures { Wrote (digits n) self.old self.new }
    {
        let mut a = [0u8; 10];
        let mut i = 9;
        let mut v = n;
        while 9 < v {
            a[i] = b'0' + (v % 10) as u8;
            i -= 1;
            v /= 10;
        }
        a[i] = b'0' + v as u8;
        self.bytes(&a[i..]);
    }

    // Numbers, each after a space.
    pub fn numbers(&mut self, vs: &[u32])
        requires { Room (numbers_text vs.now) self.old }
        ensures { Wrote (numbers_text vs.now) self.old self.new }
    {
        for v in vs {
            self.bytes(b" ");
            self.number(*v);
        }
    }
}
