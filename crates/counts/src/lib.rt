// Counts, one for each number from 0 to 255. They come by value where they are summed: of an array that is lent, a proof does not know
// that its elements fit 16 bits.
#![tactic(auto)]

ghost use Rattle.std.specs.Prelude.{◌≡◌, ◌≤◌, ◌<◌};
ghost use Rattle.counts.specs.Counts.{count_of, one_more, sum_of, counted_outside};

// The sum of the counts, which 32 bits hold: 256 counts of 16 bits. `as`: it fits by the type `u32`; `try_from` would add a case with no answer.
pub fn sum(counts: [u16; 256]) -> usize
    ensures { result ≡ sum_of counts }
{
    counts.iter().map(|&count| u32::from(count)).sum::<u32>() as usize
}

// Whether a count stands against 0 or above n.
pub fn counted_outside(n: usize, counts: [u16; 256]) -> bool
    requires { n ≤ 255 }
    ensures { result ≡ counted_outside n counts }
{
    0 < counts[0] || counts[n + 1..].iter().any(|&count| 0 < count)
}

// One more for a number.
pub fn count_one<const N: usize>(counts: &mut [u16; N], j: usize)
    requires { (j < N) × (count_of counts.old j < 65535) }
    ensures { counts.new ≡ one_more counts.old j }
{
    counts[j] += 1;
}
