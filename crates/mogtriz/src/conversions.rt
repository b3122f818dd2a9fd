// Boxes in graded order from C: C's mogtriz_converted is what a conversion gives.
ghost use Rattle.std.specs.Prelude.{◌≡◌};
ghost use Rattle.conversion.specs.Converted.{from_graded, to_graded, converted, out_converted};

use conversion::Converted;

// A box in graded order, converted to our numbers.
#[unsafe(no_mangle)]
pub extern "C" fn mogtriz_from_graded(bytes: &[u8], out: &mut [u8]) -> Converted
    ensures value { result ≡ converted bytes.now out.old }
    ensures out_after { out.new ≡ out_converted from_graded bytes.now out.old }
{
    Converted::from(conversion::from_graded(bytes, out))
}

// A box with our numbers, converted to graded order.
#[unsafe(no_mangle)]
pub extern "C" fn mogtriz_to_graded(bytes: &[u8], out: &mut [u8]) -> Converted
    ensures value { result ≡ converted bytes.now out.old }
    ensures out_after { out.new ≡ out_converted to_graded bytes.now out.old }
{
    Converted::from(conversion::to_graded(bytes, out))
}
