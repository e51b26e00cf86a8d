//! Runs of calls on a map: the headline of this crate.
ghost use Rattle.std.specs.Prelude.{◌≡◌, ℕ, Bool, List, Option, All, IfOk, OnOk, OnErr, length, map, vec_len};
ghost use Rattle.std.specs.FinMap.{get, len};
ghost use Rattle.prefix_trie_bits.specs.Model.Addresses.{address_total};
ghost use Rattle.prefix_trie_bits.specs.Model.Counted.{CountedStep, CountedRun, CountsReads, TidyIf, tidy_after_all};
ghost use Rattle.prefix_trie_bits.specs.Model.Matches.{longest_match, shortest_match, prefix_pair};
ghost use Rattle.prefix_trie_bits.specs.Model.Step.{Run, Insert, Get, Lpm, Spm, Remove, RemoveKeepTree, RemoveChildren, RetainAtLeast, Clear, Value, Match, Done, Count, Addresses};
ghost use Rattle.prefix_trie_bits.specs.Model.Storage.{StepInStorage, RunInStorage};
ghost use Rattle.prefix_trie_bits.specs.Calls.Retaining.{RetainsInStorage};
ghost use Rattle.prefix_trie_map.specs.Calling.{CalledAtEntry};
ghost use Rattle.prefix_trie_map.specs.Steps.{state, stored_state};
ghost use Rattle.prefix_trie_map.specs.Walks.{lent_item};
ghost use Rattle.prefix_trie_map.specs.Whole.{IsWhole};
ghost use Rattle.prefix_trie.specs.Model.Replay.{IsFittingCall, call_of, calls_of, reply_of, replies_of};

mod listings;
mod reads;

use listings::{children, covered, list_reply, listed, listed_from};
use prefix_trie_bits::prefix::{Prefix, Refusal};
use prefix_trie_map::map::{PrefixMap, Visits};
pub use reads::Reads;
use std::alloc::{AllocError, Allocator};

/// A call of a map from prefixes to numbers, with its arguments.
#[derive(Drop)]
pub enum Call<P> {
    /// `insert`: sets the value of this prefix.
    Insert(P, u64),
    /// `get`: the value of exactly this prefix.
    Get(P),
    /// `get_lpm`: the longest stored prefix that contains this one, and its value.
    Lpm(P),
    /// `get_spm`: the shortest stored prefix that contains this one, and its value.
    Spm(P),
    /// `remove`: removes the entry of this prefix, and then the empty nodes of its search path.
    Remove(P),
    /// `remove_keep_tree`: removes the entry of this prefix, and leaves all nodes.
    RemoveKeepTree(P),
    /// `drop_children`, not `remove_children`: removes the entries that this prefix contains, and the nodes left empty.
    RemoveChildren(P),
    /// `retain`: keeps the entries whose prefixes have at least this length, and the nodes that they need.
    RetainAtLeast(u8),
    /// `clear`: removes all entries, and leaves only the root.
    Clear,
    /// `len`: the number of entries.
    Len,
    /// `node_count`: the number of nodes, the root among them.
    NodeCount,
    /// `address_count`: the number of prefixes of the full width that the entries contain.
    AddressCount,
    /// `iter`: all entries, in listing order.
    List,
    /// `iter_from`: the entries after this prefix, and its own if the flag is true.
    ListFrom(P, bool),
    /// `children`: the entries whose prefixes this one contains.
    Children(P),
    /// `cover`: the entries whose prefixes contain this one, shortest first.
    Cover(P),
}

/// The result of a call. Prefixes have no host bits.
#[derive(Drop)]
pub enum Reply<P: Prefix, A: Allocator> {
    /// For `Insert`, `Remove` and `RemoveKeepTree` the previous value, for `Get` the value.
    Value(Option<u64>),
    /// For `Lpm` and `Spm`.
    Match(Option<(P, u64)>),
    /// For `RemoveChildren`, `RetainAtLeast` and `Clear`.
    Done,
    /// For `Len` and `NodeCount`.
    Count(usize),
    /// For `AddressCount`. `None` if the entries contain all addresses.
    Addresses(Option<P::R>),
    /// For `List`, `ListFrom`, `Children` and `Cover`.
    Entries(Vec<(P, u64), A>),
    /// For `Insert` and the listings, if they failed. The map keeps its entries and nodes.
    Refused(Refusal),
}

/// Carries out the calls in order and returns one reply for each.
///
/// After any list of calls, every call returns what a finite map from bit strings to values returns:
/// exact lookups and longest and shortest stored beginnings within floor(length / 5) + 1 node
/// visits, each walk its selected entries once in order, and a tidy map's nodes are exactly those
/// that its keys need.
///
/// In detail, on the paths of the prefixes: `Insert` sets a value and returns the previous one.
/// `Get` returns the value, `Lpm` and `Spm` the longest and the shortest stored beginning with its
/// value. `Remove` and `RemoveKeepTree` remove the entry and return its value. `RemoveChildren`
/// removes the entries that begin with the path, `RetainAtLeast` those that are shorter than the
/// length, and `Clear` all. `Len` returns the number of entries, and `AddressCount` the number of
/// bit strings of full width that begin with some entry. `List` returns all entries in listing
/// order, `ListFrom` those after the path (and its own if asked), `Children` those that begin with
/// the path, and `Cover` those that the path begins with, the shortest first.
///
/// `NodeCount` returns the number of nodes. `Insert` adds the missing nodes of its search path.
/// `Remove` removes the empty nodes of its search path, from the bottom up. `RemoveChildren`
/// removes the nodes under the path's own node and then does the same. `RetainAtLeast` leaves the
/// needed nodes, and `Clear` the root. The other calls leave the nodes unchanged.
///
/// Every prefix must fit. A refused `Insert` has the reply `Refused`, with `IndexRange` only if the
/// slots that one insertion may need would exceed the limit. A listing for which no memory is found
/// has the reply `Refused(Memory)`. Both leave entries and nodes unchanged, and the run goes on.
///
/// # Errors
///
/// Returns an error if the memory for the replies cannot be allocated. This comes first, so no call
/// was carried out then.
///
/// # Examples
///
/// ```rust
/// let mut map = PrefixMap::new(alloc)?;
/// let wide: Ipv4Prefix = "10.1.0.0/16".parse()?;
/// let host = "10.1.2.3/32".parse()?;
/// let replies = run(alloc, &mut map, &[Call::Insert(wide, 1), Call::Lpm(host), Call::Get(host), Call::Len])?;
/// matches!(&replies[0], Reply::Value(None));              // true: 10.1.0.0/16 is new
/// matches!(&replies[1], Reply::Match(Some((_, 1))));      // true: 10.1.0.0/16 has the value 1
/// matches!(&replies[2], Reply::Value(None));              // true: 10.1.2.3/32 is not stored
/// matches!(&replies[3], Reply::Count(1));                 // true
/// ```
pub fn run<P: Prefix, A: Allocator + Clone>(
    alloc: A,
    map: &mut PrefixMap<P, u64, A>,
    calls: &[Call<P>],
) -> Result<Vec<Reply<P, A>, A>, AllocError>
    requires { All (IsFittingCall P.IsFitting) calls.now }

    // The calls with their replies are a run of the model on the map's entries and nodes.
    ensures run { IfOk result (λ replies. Run P.path P.back P.R.bit_width
        (state map.old) (calls_of calls.now) (replies_of P.R.bits replies.items) (state map.new)) }

    // They are a run that sees the storage too: which blocks each call takes, how far the arrays
    // grow, and when a new key is refused.
    ensures run_in_storage { IfOk result (λ replies. RunInStorage P.path P.back P.R.bit_width
        (stored_state map.old) (calls_of calls.now) (replies_of P.R.bits replies.items)
        (stored_state map.new)) }

    // They are a run with counts too: each lookup reads exactly the nodes of its search path, at
    // most one for each five bits plus one. If the map was tidy before the run, or is cleared or
    // retained in it, its nodes are exactly the needed ones from then on, until a `RemoveKeepTree`.
    // `run_counted` states that these numbers are those of the map's counters.
    ensures counted { IfOk result
        (λ replies. (reads : List (Option ℕ)) × CountedRun P.path P.back P.R.bit_width
        (stored_state map.old) (calls_of calls.now) (replies_of P.R.bits replies.items) reads
        (stored_state map.new)) }
    ensures tidy { OnOk result ((tidy : Bool) → TidyIf tidy (state map.old)
        → TidyIf (tidy_after_all tidy (calls_of calls.now)) (state map.new)) }
    ensures one_each { IfOk result (λ replies. vec_len replies ≡ length calls.now) }
    ensures none_carried_out { OnErr result (map.new ≡ map.old) }
{
    Ok(run_counted(alloc, map, calls)?.0)
}

/// Carries out the calls as `run` does, and returns how many nodes each lookup read too.
///
/// The numbers exist only in the contract. A lookup reads exactly the nodes of its search path, or those down to the
/// shortest match, and at most one for each five bits of its prefix plus one.
///
/// # Errors
///
/// Returns the same errors as `run`.
pub fn run_counted<P: Prefix, A: Allocator + Clone>(
    alloc: A,
    map: &mut PrefixMap<P, u64, A>,
    calls: &[Call<P>],
) -> Result<(Vec<Reply<P, A>, A>, Reads), AllocError>
    requires { All (IsFittingCall P.IsFitting) calls.now }
    ensures counted { IfOk result (λ ran. CountedRun P.path P.back P.R.bit_width
        (stored_state map.old) (calls_of calls.now) (replies_of P.R.bits ran.0.items) ran.1
        (stored_state map.new)) }
    ensures one_each { IfOk result (λ ran. vec_len ran.0 ≡ length calls.now) }
    ensures none_carried_out { OnErr result (map.new ≡ map.old) }
{
    // Read for the proof alone: the nodes are those of a map.
    let _ = map.len();
    let mut replies = Vec::with_capacity(alloc.clone()?, calls.len())?;
    let mut reads = Reads::new();
    for call in calls {
        let (reply, read) = carry_out(&alloc, map, call);
        replies.push_reserved(reply);
        reads.push(read);
    }
    Ok((replies, reads))
}

/// Carries out one call. Returns its reply, and the number of nodes read if it is a lookup.
fn carry_out<P: Prefix, A: Allocator + Clone>(
    alloc: &A,
    map: &mut PrefixMap<P, u64, A>,
    call: &Call<P>,
) -> (Reply<P, A>, Option<Visits>)
    requires { IsFittingCall P.IsFitting call.now }
    ensures { CountedStep P.path P.back P.R.bit_width
        (stored_state map.old) (call_of call.now) (reply_of P.R.bits result.0, result.1)
        (stored_state map.new) }
{
    // Read for the proof alone: neither array exceeds the limit.
    let _ = map.len();
    match call {
        Call::Insert(prefix, value) => (insert(map, prefix, *value), None),
        Call::Get(prefix) => value_at(map, prefix),
        Call::Lpm(prefix) => longest(map, prefix),
        Call::Spm(prefix) => shortest(map, prefix),
        Call::Remove(prefix) => (remove(map, prefix), None),
        Call::RemoveKeepTree(prefix) => (remove_keep_tree(map, prefix), None),
        Call::RemoveChildren(prefix) => (drop_children(map, prefix), None),
        Call::RetainAtLeast(least) => (retain_at_least(map, *least), None),
        Call::Clear => (clear(map), None),
        Call::Len => (count_entries(map), None),
        Call::NodeCount => (count_nodes(map), None),
        Call::AddressCount => (count_addresses(map), None),
        Call::List => (list_reply(listed(alloc, map)), None),
        Call::ListFrom(prefix, inclusive) => {
            let entries = listed_from(alloc, map, prefix, *inclusive);
            (list_reply(entries), None)
        }
        Call::Children(prefix) => (list_reply(children(alloc, map, prefix)), None),
        Call::Cover(prefix) => (list_reply(covered(alloc, map, prefix)), None),
    }
}

/// Carries out an insertion.
fn insert<P: Prefix, A: Allocator>(
    map: &mut PrefixMap<P, u64, A>,
    prefix: &P,
    value: u64,
) -> Reply<P, A>
    requires { P.IsFitting prefix.now }
    ensures { StepInStorage P.path P.back P.R.bit_width
        (stored_state map.old) (Insert prefix.now value) (reply_of P.R.bits result)
        (stored_state map.new) }
{
    match map.insert(same_path(prefix), value) {
        Ok(before) => Reply::Value(before),
        Err(refused) => Reply::Refused(refused.cause),
    }
}

/// Carries out a removal that leaves all nodes.
fn remove_keep_tree<P: Prefix, A: Allocator>(
    map: &mut PrefixMap<P, u64, A>,
    prefix: &P,
) -> Reply<P, A>
    requires { P.IsFitting prefix.now }
    ensures { StepInStorage P.path P.back P.R.bit_width
        (stored_state map.old) (RemoveKeepTree prefix.now) (reply_of P.R.bits result)
        (stored_state map.new) }
{
    Reply::Value(map.remove_keep_tree(prefix))
}

/// Carries out a removal of everything that a prefix contains.
fn drop_children<P: Prefix, A: Allocator>(map: &mut PrefixMap<P, u64, A>, prefix: &P) -> Reply<P, A>
    requires { P.IsFitting prefix.now }
    ensures { StepInStorage P.path P.back P.R.bit_width
        (stored_state map.old) (RemoveChildren prefix.now) (reply_of P.R.bits result)
        (stored_state map.new) }
{
    map.drop_children(prefix);
    Reply::Done
}

/// Carries out a removal that prunes.
fn remove<P: Prefix, A: Allocator>(map: &mut PrefixMap<P, u64, A>, prefix: &P) -> Reply<P, A>
    requires { P.IsFitting prefix.now }
    ensures { StepInStorage P.path P.back P.R.bit_width
        (stored_state map.old) (Remove prefix.now) (reply_of P.R.bits result)
        (stored_state map.new) }
{
    Reply::Value(map.remove(prefix))
}

/// Removes all entries.
fn clear<P: Prefix, A: Allocator>(map: &mut PrefixMap<P, u64, A>) -> Reply<P, A>
    ensures { StepInStorage P.path P.back P.R.bit_width
        (stored_state map.old) Clear (reply_of P.R.bits result) (stored_state map.new) }
{
    map.clear();
    Reply::Done
}

/// Keeps the entries whose prefixes have at least this length.
fn retain_at_least<P: Prefix, A: Allocator>(
    map: &mut PrefixMap<P, u64, A>,
    least: u8,
) -> Reply<P, A>
    ensures { StepInStorage P.path P.back P.R.bit_width
        (stored_state map.old) (RetainAtLeast least) (reply_of P.R.bits result)
        (stored_state map.new) }
{
    keep_where(map, |prefix, _| least <= prefix.prefix_len());
    Reply::Done
}

// Keeps the entries for which a test that may always be called returns true.
#[tactic(auto, using(crate::proofs::Always::may_ask_of_map))]
fn keep_where<P: Prefix, A: Allocator, F: FnMut(&P, &u64) -> bool + Drop>(
    map: &mut PrefixMap<P, u64, A>,
    test: F,
)
    requires { F.IsAlwaysCallable test }
    ensures whole { IsWhole P.R.bit_width map.old }
    ensures step { RetainsInStorage (CalledAtEntry F.FnMut P.back) test (stored_state map.old)
        (stored_state map.new) }
{
    map.retain(test);
}

/// Returns the number of entries.
fn count_entries<P: Prefix, A: Allocator>(map: &PrefixMap<P, u64, A>) -> Reply<P, A>
    ensures { reply_of P.R.bits result ≡ Count (len map.now.entries) }
{
    Reply::Count(map.len())
}

/// Returns the number of nodes.
fn count_nodes<P: Prefix, A: Allocator>(map: &PrefixMap<P, u64, A>) -> Reply<P, A>
    ensures { reply_of P.R.bits result ≡ Count (len map.now.nodes) }
{
    Reply::Count(map.node_count())
}

/// Returns the number of addresses that the entries contain.
fn count_addresses<P: Prefix, A: Allocator>(map: &PrefixMap<P, u64, A>) -> Reply<P, A>
    ensures { reply_of P.R.bits result ≡ Addresses (address_total P.R.bit_width map.now.entries) }
{
    Reply::Addresses(map.address_count())
}

/// Returns the value of exactly this prefix, and the number of nodes read.
fn value_at<P: Prefix, A: Allocator>(
    map: &PrefixMap<P, u64, A>,
    prefix: &P,
) -> (Reply<P, A>, Option<Visits>)
    requires { P.IsFitting prefix.now }
    ensures reply { reply_of P.R.bits result.0 ≡ Value (get map.now.entries (P.path prefix.now)) }
    ensures reads { CountsReads P.path (state map.now) (Get prefix.now) result.1 }
{
    let (value, visits) = map.get_counted(prefix);
    (Reply::Value(value.copied()), Some(visits))
}

/// Returns the longest stored prefix that contains this one, its value, and the number of nodes read.
fn longest<P: Prefix, A: Allocator>(
    map: &PrefixMap<P, u64, A>,
    prefix: &P,
) -> (Reply<P, A>, Option<Visits>)
    requires { P.IsFitting prefix.now }
    ensures reply { reply_of P.R.bits result.0
        ≡ Match (prefix_pair P.back (longest_match map.now.entries (P.path prefix.now))) }
    ensures reads { CountsReads P.path (state map.now) (Lpm prefix.now) result.1 }
{
    let (found, visits) = map.get_lpm_counted(prefix);
    (Reply::Match(found.map(owned)), Some(visits))
}

/// Returns the shortest stored prefix that contains this one, its value, and the number of nodes read.
fn shortest<P: Prefix, A: Allocator>(
    map: &PrefixMap<P, u64, A>,
    prefix: &P,
) -> (Reply<P, A>, Option<Visits>)
    requires { P.IsFitting prefix.now }
    ensures reply { reply_of P.R.bits result.0
        ≡ Match (prefix_pair P.back (shortest_match map.now.entries (P.path prefix.now))) }
    ensures reads { CountsReads P.path (state map.now) (Spm prefix.now) result.1 }
{
    let (found, visits) = map.get_spm_counted(prefix);
    (Reply::Match(found.map(owned)), Some(visits))
}

/// Returns a prefix with the same path, since a borrowed one cannot be passed on.
fn same_path<P: Prefix>(prefix: &P) -> P
    requires { P.IsFitting prefix.now }
    ensures fits { P.IsFitting result }
    ensures path { P.path result ≡ P.path prefix.now }
{
    P::from_repr_len(prefix.repr(), prefix.prefix_len())
}

/// Returns an entry with its value copied.
fn owned<P>(lent: (P, &u64)) -> (P, u64)
    ensures { result ≡ lent_item lent.entry }
{
    let (prefix, value) = lent;
    (prefix, *value)
}
