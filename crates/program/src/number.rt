// Numbers read as signed, and cut to 32 bits.
ghost use Rattle.std.specs.Prelude.{◌≡◌};
ghost use Rattle.base.specs.Number.{wrap32, unsigned};
ghost use Rattle.base.specs.Number.{signed as Number·signed};

use base::number::WORD_VALUES;

// The low 32 bits.
pub fn low32(x: u64) -> u32
    ensures { result ≡ wrap32 x }
{
    (x % WORD_VALUES) as u32
}

// 64 bits read as a signed number.
pub fn signed(x: u64) -> i64
    ensures { result ≡ Number·signed 64 x }
{
    x.cast_signed()
}

// The 64 bits of a signed number.
pub fn bits(z: i64) -> u64
    ensures { result ≡ unsigned 64 z }
{
    z.cast_unsigned()
}
