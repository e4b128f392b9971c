// Unsigned numbers as the wire has them: so many bytes, the lowest first.
ghost use Rattle.std.specs.Prelude.{◌≡◌, ℕ, ◌^◌, ◌%◌, ◌≤◌};
ghost use Rattle.std.proofs.Common.{rules};

pub trait Integer {
    // How many bytes it takes.
    ghost WIDTH: { ℕ };

    // The number that it is.
    ghost number: { Self → ℕ };

    const WIDTH: usize;

    // What a number's lowest bytes spell: the number itself, where it is below 256 ^ WIDTH.
    fn from_u64(v: u64) -> Self
        ensures { number result ≡ v % 256 ^ WIDTH };

    fn into_u64(self) -> u64
        ensures { result ≡ number self };

    ghost fits: { WIDTH ≤ 8 };

    // No other value is the same number.
    ghost one: { (x y : Self) → number x ≡ number y → x ≡ y };
}

impl Integer for u8 {
    ghost WIDTH = { 1 };

    ghost number = { λ x. x };

    const WIDTH: usize = 1;

    fn from_u64(v: u64) -> u8 {
        (v % 256) as u8
    }

    fn into_u64(self) -> u64 {
        u64::from(self)
    }

    ghost fits = { Prim.search rules };

    ghost one = { λ x y e. e };
}

impl Integer for u16 {
    ghost WIDTH = { 2 };

    ghost number = { λ x. x };

    const WIDTH: usize = 2;

    fn from_u64(v: u64) -> u16 {
        (v % 65536) as u16
    }

    fn into_u64(self) -> u64 {
        u64::from(self)
    }

    ghost fits = { Prim.search rules };

    ghost one = { λ x y e. e };
}

impl Integer for u32 {
    ghost WIDTH = { 4 };

    ghost number = { λ x. x };

    const WIDTH: usize = 4;

    fn from_u64(v: u64) -> u32 {
        (v % 4294967296) as u32
    }

    fn into_u64(self) -> u64 {
        u64::from(self)
    }

    ghost fits = { Prim.search rules };

    ghost one = { λ x y e. e };
}

impl Integer for u64 {
    ghost WIDTH = { 8 };

    ghost number = { λ x. x };

    const WIDTH: usize = 8;

    fn from_u64(v: u64) -> u64 {
        v
    }

    fn into_u64(self) -> u64 {
        self
    }

    ghost fits = { Prim.search rules };

    ghost one = { λ x y e. e };
}
