// The sum of the bytes of a lent slice, modulo 2^32.
#![tactic(auto)]

ghost use Rattle.std.specs.Prelude.{◌≡◌, ◌%◌};
ghost use Rattle.model.specs.Sizes.{word32};
ghost use Rattle.model.specs.Snapshot.{byte_sum};

pub fn byte_sum(bytes: &[u8]) -> u32
    ensures { result ≡ byte_sum bytes.now % word32 }
{
    let mut sum: u32 = 0;
    for b in bytes {
        sum = sum.wrapping_add(u32::from(*b));
    }
    sum
}
