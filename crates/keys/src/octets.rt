// Some bytes, at most N, and no more than a length of two bytes can tell: a name, an identifier or another parameter.
ghost use Rattle.std.specs.Prelude.{◌≡◌, ◌-◌, ◌<◌, ◌≤◌, drop, replicate};

#[derive(Clone, Copy)]
pub struct Octets<const N: usize> {
    // The bytes stand in front, and zeros behind them. An array and a length: they are copied, and memory is fixed.
    pub(crate) held: [u8; N],
    pub(crate) len: usize,
    // Ghost fields in place of a model: of a value with a model a caller could not copy a struct that holds it.
    ghost inside: { len ≤ N },
    ghost told: { len < 65536 },
    ghost rest: { drop len held ≡ replicate (N - len) 0 },
}
