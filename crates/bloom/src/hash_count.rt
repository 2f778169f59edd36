ghost use Rattle.std.specs.Prelude.{◌≡◌, ℕ, ◌*◌, ◌^◌, ◌<◌, max};
ghost use Rattle.bloom.specs.HashCount.{hashes_for, hash_count, hash_count_by_half};

use std::num::saturating_f64_to_u32;

const LN_2: f64 = 0.693147180559945309417232121458;

/// By half a budget the hash count is what half as large a budget has by the whole, and what the whole of it has for twice as many
/// hits, where no hits count as one.
pub fn half_the_budget_has_half_the_bits()
    ensures budgets { (b h : ℕ) → hash_count_by_half (b * 2) h ≡ hash_count b h }
    ensures hits { (b h : ℕ) → b < 2 ^ 32 → h < 2 ^ 32 → hash_count_by_half b h ≡ hash_count b (max h 1 * 2) }
{}

// The number of hash positions that suits so many bits and so many expected entries. Bits are counted exactly.
fn k_num(num_bits: u64, expected_hits: u32) -> u32
    requires exact { num_bits < 2 ^ 53 }
    ensures { result ≡ hashes_for num_bits expected_hits }
{
    let hits = expected_hits.max(1);
    let ratio = num_bits as f64 / hits as f64;
    let k = (ratio * LN_2).round();
    saturating_f64_to_u32(k).max(1)
}

/// The number of hash positions that suits `num_bytes` bytes and so many expected entries, at least 1; no entries count as one.
/// It may be over 64, which no filter takes.
pub fn optimal_k_num(num_bytes: u32, expected_hits: u32) -> u32
    ensures { result ≡ hash_count num_bytes expected_hits }
{
    k_num(num_bytes as u64 * 8, expected_hits)
}

/// The same by 4 bits for each byte: what suits each of two filters that share the bytes. An odd number is not rounded first.
pub fn optimal_k_num_by_half(num_bytes: u32, expected_hits: u32) -> u32
    ensures { result ≡ hash_count_by_half num_bytes expected_hits }
{
    k_num(num_bytes as u64 * 4, expected_hits)
}
