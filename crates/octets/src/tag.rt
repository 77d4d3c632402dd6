// The check sum of a descriptor tag.
ghost use Rattle.std.specs.Prelude.{◌≡◌};
ghost use Rattle.octets.specs.Tag.{tag_sum};

// Where the sum stands in the tag; it is not summed itself.
const SUM_AT: usize = 4;

// The sum modulo 256 of a tag's bytes, all but byte 4.
pub fn sum_of(tag: &[u8]) -> u8
    ensures { result ≡ tag_sum tag.now }
{
    // A `for`: as a chain (`take`, `chain`, `skip`, `fold`) the sum was not proved.
    let mut sum = 0u8;
    for (i, byte) in tag.iter().enumerate() {
        if i != SUM_AT {
            sum = sum.wrapping_add(*byte);
        }
    }
    sum
}
