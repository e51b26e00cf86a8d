//! What the caller of a run learns from the contract alone.
ghost use Rattle.std.specs.Prelude.{◌≡◌, ◌≤◌, ◌+◌, ◌/◌, ℕ, [], ◌∷◌, Some, IfOk, OnOk, length};
ghost use Rattle.std.specs.FinMap.{len};
ghost use Rattle.prefix_trie.specs.Terms.{longest_match, needed, replies_of, prefix_pair};
ghost use Rattle.prefix_trie_map.specs.Steps.{state};
ghost use Rattle.prefix_trie_bits.specs.Model.Step.{Match, Done, Count, Reply as Answer};

use prefix_trie::replay::{Call, Reads, Reply, run, run_counted};
use prefix_trie::{Key, Prefix, PrefixMap, Refusal};
use std::alloc::{AllocError, Allocator};

type Pair = (u16, u8);

type Numbers<A> = PrefixMap<Pair, u64, A>;

// Runs a longest match on any map. Returns the match and the number of nodes read.
fn longest_of<A: Allocator + Clone>(
    alloc: A,
    map: &mut Numbers<A>,
    prefix: Pair,
) -> Result<(Vec<Reply<Pair, A>, A>, Reads), AllocError>
    requires { ⟦<Pair as Prefix>⟧.IsFitting prefix }
    ensures reply { IfOk result (λ ran. replies_of ⟦<u16 as Key>⟧.bits ran.0.items
        ≡ Match (prefix_pair ⟦<Pair as Prefix>⟧.back
        (longest_match map.old.entries (⟦<Pair as Prefix>⟧.path prefix))) ∷ []) }
    ensures reads { IfOk result
        (λ ran. (n : ℕ) × (ran.1 ≡ Some n ∷ [])
        × (n ≤ length (⟦<Pair as Prefix>⟧.path prefix) / 5 + 1)) }
    ensures unchanged { OnOk result (state map.new ≡ state map.old) }
{
    run_counted(alloc, map, &[Call::Lpm(prefix)])
}

// Clears any map, inserts a key, and counts the nodes.
fn nodes_once_cleared<A: Allocator + Clone>(
    alloc: A,
    map: &mut Numbers<A>,
    prefix: Pair,
) -> Result<Vec<Reply<Pair, A>, A>, AllocError>
    requires { ⟦<Pair as Prefix>⟧.IsFitting prefix }
    ensures { IfOk result
        (λ replies. (inserted : Answer (ℕ × ℕ) ℕ) × (replies_of ⟦<u16 as Key>⟧.bits replies.items
        ≡ Done ∷ inserted ∷ Count (len (needed map.new.entries)) ∷ [])) }
{
    let calls = [Call::Clear, Call::Insert(prefix, 1), Call::NodeCount];
    run(alloc, map, &calls)
}

// Inserts a key into a new map, and counts the nodes.
fn nodes_of_new<A: Allocator + Clone>(
    alloc: A,
    other: A,
    prefix: Pair,
) -> Result<(Numbers<A>, Vec<Reply<Pair, A>, A>), Refusal>
    requires { ⟦<Pair as Prefix>⟧.IsFitting prefix }
    ensures { IfOk result
        (λ made. (inserted : Answer (ℕ × ℕ) ℕ) × (replies_of ⟦<u16 as Key>⟧.bits made.1.items
        ≡ inserted ∷ Count (len (needed made.0.entries)) ∷ [])) }
{
    let mut map = PrefixMap::new(alloc)?;
    match run(other, &mut map, &[Call::Insert(prefix, 1), Call::NodeCount]) {
        Ok(replies) => Ok((map, replies)),
        Err(AllocError) => Err(Refusal::Memory),
    }
}
