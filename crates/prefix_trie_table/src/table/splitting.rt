//! Building a part of a table again, with all its blocks at their final sizes and without its values.
ghost use Rattle.std.specs.Prelude.{◌≡◌, ℕ, None, drop, take, IfOk, IfErr, IfSome};
ghost use Rattle.prefix_trie_bits.specs.declared.prefix.Refusal.TheVariants.{Memory};
ghost use Rattle.prefix_trie_bits.specs.Model.Step.{State};
ghost use Rattle.prefix_trie_bits.specs.Model.Bits.{begins};
ghost use Rattle.prefix_trie_bits.specs.Places.{HoldsValues, HoldsChildren};
ghost use Rattle.prefix_trie_table.specs.Blocks.Cells.{blank_node, node_sizes, cell_sizes};
ghost use Rattle.prefix_trie_table.specs.Splitting.Built.{IsSource, BuildsNode, child_slots, value_slots, slots_below};
ghost use Rattle.prefix_trie_table.specs.Splitting.Building.{CanBuild};
ghost use Rattle.prefix_trie_table.specs.Splitting.Skeleton.{IsSecond};
ghost use Rattle.prefix_trie_table.specs.Blocks.NodeArrays.{FitsByte};
ghost use Rattle.prefix_trie_table.specs.Tables.{IsTrie};

use crate::allocator::blocks::{self, Cells};
use crate::allocator::node::{Node, NodeSlot, ROOT};
use crate::allocator::nodes::{NodeAllocator, VisitCounter};
use crate::table::removal::is_bare;
use arrayvec::ArrayVec;
use prefix_trie_bits::node::{count, has_bit, with_bit};
use prefix_trie_bits::prefix::{BitString, Key, Refusal};
use std::alloc::Allocator;

/// Returns masks of what begins with a bit string at a node, and what is left of the string below a child.
///
/// `rest` has the bits after those that lead to the node. The first mask has the value bits of strings that it begins.
/// The second has the child bits below which there can be such strings.
fn masks<K: Key>(rest: &BitString<K>) -> (u32, u32, BitString<K>)
    ensures values { HoldsValues result.0 (begins rest.now) }
    ensures children { HoldsChildren result.1 (begins (take 5 rest.now)) }
    ensures below { result.2 ≡ drop 5 rest.now }
{
    if rest.len() < 5 {
        return (
            rest.value_cover_mask(),
            rest.child_cover_mask(),
            rest.first(0),
        );
    }
    (0, with_bit(0, rest.child_bit()), rest.after(5))
}

/// Builds a node with those of its values that begin with a bit string, and its children with theirs, if any.
///
/// No value is moved: all cells are vacant. The returned node has its blocks, but no slot yet. `rest` has the bits of the
/// string after those that lead to the node. At most `levels` levels of nodes are below it.
fn build_node<K: Key, T: Drop, A: Allocator, V: VisitCounter>(
    from: &NodeAllocator<A, V>,
    node: Node,
    rest: &BitString<K>,
    levels: u32,
    nodes: &mut NodeAllocator<A, V>,
    cells: &mut Cells<T, A>,
    counter: &mut V,
) -> Result<Option<Node>, Refusal>
    requires source { IsSource from.now node levels }
    requires nodes { CanBuild blank_node node_sizes
        (slots_below child_slots from.now.slots levels node) nodes.old }
    requires cells { CanBuild None cell_sizes
        (slots_below value_slots from.now.slots levels node) cells.old }
    ensures built { IfOk result
        (λ top. BuildsNode from.now.slots levels node rest.now nodes.old nodes.new cells.old
        cells.new top) }
    ensures fits { IfOk result (λ top. IfSome top FitsByte) }
    ensures memory { IfErr result (λ cause. cause ≡ Memory) }
{
    let (values, children, deeper) = masks(rest);
    let own = cells.build_vacant(count(node.value_bitmap & values))?;
    let mut built = Node {
        value_bitmap: node.value_bitmap & values,
        child_bitmap: 0,
        value_block: own.start,
        child_block: 0,
        value_tier: own.tier as u8,
        child_tier: 0,
    };
    let mut below: ArrayVec<Node, 32> = ArrayVec::new();
    for child in 0..32 {
        if !has_bit(node.child_bitmap & children, child) {
            continue;
        }
        let lower = from.visit(node.child_slot(child), counter);
        let fewer = levels - 1;
        let branch = build_node(from, lower, &deeper, fewer, nodes, cells, counter)?;
        let Some(branch) = branch else {
            continue;
        };
        below.push(branch);
        built.child_bitmap = with_bit(built.child_bitmap, child);
    }
    if is_bare(built) {
        return Ok(None);
    }
    let list = nodes.build(&below)?;
    built.child_block = list.start;
    built.child_tier = list.tier as u8;
    Ok(Some(built))
}

/// Builds the nodes and blocks for the entries that begin with a bit string, in arrays of their own under the same limit.
///
/// No value is moved: all cells are vacant. Both arrays of the table are only read.
///
/// # Errors
///
/// Returns `Memory` if an allocation fails. `IndexRange` never comes, since these blocks are no larger than those that
/// the same nodes have here.
pub(super) fn build_part<K: Key, T: Drop, A: Allocator + Clone, V: VisitCounter>(
    nodes: &NodeAllocator<A, V>,
    cells: &Cells<T, A>,
    path: &BitString<K>,
    counter: &mut V,
) -> Result<(NodeAllocator<A, V>, Cells<T, A>), Refusal>
    requires trie { (s : State T) × (count : ℕ) × IsTrie K.bit_width count nodes.now cells.now s }
    ensures built { IfOk result (λ r. IsSecond path.now nodes.now r.0 r.1) }
    ensures range { IfErr result (λ cause. cause ≡ Memory) }
{
    let mut second_nodes = nodes.new_like()?;
    let Ok(mut second_cells) = blocks::cells(cells.allocator(), cells.limit()) else {
        return Err(Refusal::Memory);
    };
    let root = nodes.visit(ROOT, counter);
    let top = build_node(
        nodes,
        root,
        path,
        K::width() / 5,
        &mut second_nodes,
        &mut second_cells,
        counter,
    )?;
    if let Some(top) = top {
        second_nodes.put(ROOT, top);
    }
    Ok((second_nodes, second_cells))
}
