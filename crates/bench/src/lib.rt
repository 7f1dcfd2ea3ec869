// What the benchmark links (docs/BENCH.md): no part of the library.
#![tactic(auto)]

ghost use Rattle.std.specs.Prelude.{◌≡◌};
ghost use Rattle.model.specs.Basics.{bit};
ghost use Rattle.cells.specs.Validity.{valid_cells};

#[unsafe(no_mangle)]
pub extern "C" fn bench_valid(t: &[u64]) -> u32
    ensures { result ≡ bit (valid_cells t.now) }
{
    u32::from(validity::valid(t))
}
