ghost use Rattle.std.specs.Prelude.{◌≡◌, ◌≤◌, replicate, is_ok, IfOk, vec_capacity, MatchResult, nat_le};

/// `count` copies of a value, in the memory of a `Vec`, whatever stood there. Where its capacity is less than `count`, the
/// `Vec` comes back as it was. Nothing of the memory goes, and none is asked for.
pub fn filled<T: Copy>(mut memory: Vec<T>, value: T, count: usize) -> Result<Vec<T>, Vec<T>>
    ensures answer { is_ok result ≡ nat_le count (vec_capacity memory) }
    ensures room { IfOk result (λ v. vec_capacity v ≡ vec_capacity memory) }
    ensures cases { MatchResult result (λ v. v.items ≡ replicate count value) (λ back. back ≡ memory) }
{
    if memory.capacity() < count {
        return Err(memory);
    }
    memory.clear();
    // By single pushes: `resize` does not promise that it asks for no more memory.
    for _ in 0..count {
        memory.push_reserved(value);
    }
    Ok(memory)
}
