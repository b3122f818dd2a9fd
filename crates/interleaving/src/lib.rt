// Interleaving: the bytes of an object spread over its blocks, so that neighbouring bytes lie in different blocks, and put back. An
// object is `len` rows of k bytes, and the k blocks are its columns.
#![tactic(auto)]

ghost use Rattle.std.specs.Prelude.{◌≡◌};
ghost use Rattle.checks.specs.Checks.{first_met};
ghost use Rattle.checks.specs.Refusals.{number_in};
ghost use Rattle.interleaving.specs.Interleaved.{interleaved, deinterleaved, interleave_checks, interleave_answer, out_moved};

use checks::Refusal;

// The first check that is met, if one is.
fn check(
    family: usize,
    k: usize,
    len: usize,
    bytes_len: usize,
    out_len: usize,
) -> Result<(), Refusal>
    ensures { number_in result ≡ first_met (interleave_checks family k len bytes_len out_len) }
{
    checks::parameters(family, k, len)?;
    if bytes_len != k * len {
        return Err(Refusal::BufferLength);
    }
    if out_len != k * len {
        return Err(Refusal::BufferLength);
    }
    Ok(())
}

// Byte t of the object goes to block (t mod k) + 1 of `out` at place t div k. A refusal writes nothing. Any number of a family is served or
// refused. The two ways differ in the order of two arguments: a function of both, handed that order, would be no plainer.
pub fn interleave(
    family: usize,
    k: usize,
    len: usize,
    object: &[u8],
    out: &mut [u8],
) -> Result<(), Refusal>
    ensures value { number_in result ≡ interleave_answer family k len object.now out.old }
    ensures out_after { out.new ≡ out_moved interleaved family k len object.now out.old }
{
    check(family, k, len, object.len(), out.len())?;
    transposition::transpose(object, len, k, out);
    Ok(())
}

// The inverse: place t div k of block (t mod k) + 1 of the object becomes byte t of `out`. A refusal writes nothing.
pub fn deinterleave(
    family: usize,
    k: usize,
    len: usize,
    object: &[u8],
    out: &mut [u8],
) -> Result<(), Refusal>
    ensures value { number_in result ≡ interleave_answer family k len object.now out.old }
    ensures out_after { out.new ≡ out_moved deinterleaved family k len object.now out.old }
{
    check(family, k, len, object.len(), out.len())?;
    transposition::transpose(object, k, len, out);
    Ok(())
}
