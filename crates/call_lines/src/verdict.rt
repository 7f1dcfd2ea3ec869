// What the end of a line says: whether the cells of the tables were left, and those behind a result.
ghost use Rattle.std.specs.Prelude.{◌≡◌, true, ◌↔◌, All, drop};

// kept: no plainer. `==` at each place would have no contract, and on this one "unaltered" and "the same cells" rest.
pub fn same(a: &[u64], b: &[u64]) -> bool
    ensures { (result ≡ true → a.now ≡ b.now) × (a.now ≡ b.now → result ≡ true) }
{
    a == b
}

pub fn altered(t: &[u64], before: &[u64]) -> &'static str {
    if same(t, before) {
        "unaltered"
    } else {
        "ALTERED"
    }
}

// Whether every element from `from` on is the value.
pub fn is_filled<T: PartialEq>(list: &[T], from: usize, value: &T) -> bool
    ensures { (result ≡ true) ↔ All (λ x. T.eq x value.now ≡ true) (drop from list.now) }
{
    match list.get(from..) {
        Some(behind) => behind.iter().all(|x| x == value),
        None => true,
    }
}

// Of what stands behind a result.
// kept: no plainer. One helper for `altered`, `rest` and `yes` would take both words: an `if` with another name.
pub fn rest(is_kept: bool) -> &'static str {
    if is_kept { "rest kept" } else { "REST ALTERED" }
}

pub fn yes(is_so: bool) -> &'static str {
    if is_so { "yes" } else { "NO" }
}
