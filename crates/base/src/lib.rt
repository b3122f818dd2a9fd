// Powers of two, lowest bits and lengths in bits, numbers in a range. The laws of numbers, bits and lists that every crate may cite stand in proofs/.
#![tactic(auto)]

ghost use Rattle.std.specs.Prelude.{◌≡◌, ◌-◌, ◌^◌, ◌<◌};
ghost use Rattle.std.specs.Int.Count.{count_trailing_zeros, count_leading_zeros};
ghost use Rattle.base.specs.Ranges.{outside};

// 2 to the power i.
pub fn power(i: usize) -> usize
    requires { i < 64 }
    ensures { result ≡ 2 ^ i }
{
    1usize << i
}

// The place of the lowest set bit, from 0; 64 for x = 0. `as`: it fits by the type of the bits counted, which is `u32`; `try_from` would add a
// case with no answer.
pub fn lowest_bit(x: usize) -> usize
    ensures { result ≡ count_trailing_zeros 64 x }
{
    usize::trailing_zeros(x) as usize
}

// x without its lowest set bit.
pub fn without_lowest(x: usize) -> usize
    requires { 0 < x }
    ensures { result ≡ x - 2 ^ count_trailing_zeros 64 x }
{
    x & (x - 1)
}

// How many bits x has, up to its highest set bit; 0 for x = 0. `as` as in `lowest_bit`.
pub fn bit_length(x: usize) -> usize
    ensures { result ≡ 64 - count_leading_zeros 64 x }
{
    64 - usize::leading_zeros(x) as usize
}

// Whether a number is below the least or above the most.
pub fn is_outside(least: usize, most: usize, number: usize) -> bool
    ensures { result ≡ outside least most number }
{
    number < least || most < number
}
