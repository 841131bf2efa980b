ghost use Rattle.std.specs.Prelude.{◌≡◌, ℕ, ◌↔◌, length, IfOk};
ghost use Rattle.ja_sets.specs.Sets.{Has, Lacks};

use ja_base::Memory;
use ja_sets::TokenSet;
use std::alloc::Global;

/// A copy of a set of tokens below `n`.
pub fn copied(alloc: Global, n: u32, set: &TokenSet) -> Result<TokenSet, Memory>
    requires { length set.now ≡ n }
    ensures same { IfOk result (λ copy. (t : ℕ) → Has copy t ↔ Has set.now t) }
    ensures size { IfOk result (λ copy. length copy ≡ n) }
{
    let mut copy = TokenSet::new(alloc, n)?;
    copy.join(set);
    Ok(copy)
}

/// The tokens of a set below `n` that are not in another.
pub fn without(alloc: Global, n: u32, set: &TokenSet, other: &TokenSet) -> Result<TokenSet, Memory>
    requires set { length set.now ≡ n }
    requires other { length other.now ≡ n }
    ensures left { IfOk result (λ rest. (t : ℕ) → Has rest t ↔ (Has set.now t × Lacks other.now t)) }
    ensures size { IfOk result (λ rest. length rest ≡ n) }
{
    let mut rest = TokenSet::new(alloc, n)?;
    let mut from = 0;
    for _i in 0..n {
        match set.next_from(from) {
            Some(token) => {
                if !other.contains(token) {
                    rest.add(token);
                }
                from = token + 1;
            }
            None => break,
        }
    }
    Ok(rest)
}
