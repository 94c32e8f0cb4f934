ghost use Rattle.std.specs.Prelude.{◌≡◌, ◌==◌, ◌<◌, ◌^◌, All, length, take, drop, position};
ghost use Rattle.rk_key.specs.Keys.{IsDigit, IsKey, IsSuffix, prefix, suffix, at_sign, decimal, key_cmp, suffix_cmp};

use std::cmp::Ordering;

/// The place of the first `@`, or the length where there is none: where the suffix begins.
pub fn split(bytes: &[u8]) -> usize
    ensures place { result ≡ length (prefix bytes.now) }
    ensures before { take result bytes.now ≡ prefix bytes.now }
    ensures after { drop result bytes.now ≡ suffix bytes.now }
{
    first_at_sign(bytes).unwrap_or(bytes.len())
}

fn first_at_sign(bytes: &[u8]) -> Option<usize>
    ensures { result ≡ position (λ byte. byte == at_sign) bytes.now }
{
    bytes.iter().position(|byte| *byte == b'@')
}

/// The order of two keys: by the bytes of their prefixes, and then by their suffixes.
pub fn compare(a: &[u8], b: &[u8]) -> Ordering
    requires a_is_key { IsKey a.now }
    requires b_is_key { IsKey b.now }
    ensures { result ≡ key_cmp a.now b.now }
{
    let (prefix_a, suffix_a) = a.split_at(split(a));
    let (prefix_b, suffix_b) = b.split_at(split(b));
    match prefix_a.cmp(prefix_b) {
        Ordering::Equal => compare_suffixes(suffix_a, suffix_b),
        unequal => unequal,
    }
}

/// The order of two suffixes: the empty one first, then larger numbers before smaller ones.
pub fn compare_suffixes(a: &[u8], b: &[u8]) -> Ordering
    requires a_is_suffix { IsSuffix a.now }
    requires b_is_suffix { IsSuffix b.now }
    ensures { result ≡ suffix_cmp a.now b.now }
{
    match (a, b) {
        ([], []) => Ordering::Equal,
        ([], _) => Ordering::Less,
        (_, []) => Ordering::Greater,
        ([_, digits_a @ ..], [_, digits_b @ ..]) => number(digits_b).cmp(&number(digits_a)),
    }
}

/// The number that digits spell.
#[tactic(auto, using(crate::proofs::Decimals::step_fits))]
fn number(digits: &[u8]) -> u64
    requires all_digits { All IsDigit digits.now }
    requires fits { decimal digits.now < 2 ^ 64 }
    ensures { result ≡ decimal digits.now }
{
    let mut number = 0;
    for digit in digits {
        number = 10 * number + u64::from(*digit - b'0');
    }
    number
}
