// Looking at objects: those that references lead to and that have no hop count get one, and enter a
// bag. An object's references, those of a tree's objects, and those of a pennant's.
#![tactic(auto)]

ghost use Rattle.std.specs.Prelude.{ℕ, ◌<◌, length};
ghost use Rattle.laws.specs.Sum.{sum, hit};
ghost use Rattle.bag.specs.Bag.{slot_count, tree_of, pennant_of};
ghost use Rattle.graph.specs.Graph.{graph};
ghost use Rattle.layers.specs.Search.{leads_to, Growable, Grown, Walkable, Apart};

use bag::Bag;

// The hop count of an object to which no chain leads.
// Stays (1): the counts are lent words of the C interface (`kullneyra_hops`), and layers `Hops.none` is this number.
pub const NONE: u32 = 4294967295;

// A tree or a pennant of a bag: how high it is, and the object at its root.
#[derive(Clone, Copy)]
pub struct Tree {
    pub height: usize,
    pub root: u32,
}

// Gives an object its hop count and puts it into the bag, unless it has one.
pub fn find(hops: &mut [u32], links: &mut [u32], bag: &mut Bag, hop: u32, v: u32)
    requires { Growable hop hops.old links.old bag.old × (v < length hops.old) }
    ensures { Grown hop (λ (w : ℕ). hit w v) hops.old links.old bag.old
        hops.new links.new bag.new }
{
    let i = v as usize;
    if hops[i] == NONE {
        hops[i] = hop;
        bag.add(links, v);
    }
}

// Finds the objects that u's references lead to.
fn visit(
    offsets: &[u32],
    targets: &[u32],
    hops: &mut [u32],
    links: &mut [u32],
    bag: &mut Bag,
    hop: u32,
    u: u32,
)
    requires { Walkable (graph offsets.now targets.now) hop hops.old links.old bag.old × (u < length hops.old) }
    ensures { Grown hop (λ (w : ℕ). leads_to (graph offsets.now targets.now) w u)
        hops.old links.old bag.old hops.new links.new bag.new }
{
    let start = offsets[u as usize] as usize;
    let end = offsets[u as usize + 1] as usize;
    for v in &targets[start..end] {
        find(hops, links, bag, hop, *v);
    }
}

// The same for all objects of a tree: from the root down the left, while the trees to the right wait with their heights. A
// loop, so that the stack that a call takes does not grow with the tree.
// Stays (6): one array of trees takes 256 bytes of stack where these two take 80; and (3): what comes next the links tell.
fn walk(
    offsets: &[u32],
    targets: &[u32],
    hops: &mut [u32],
    links: &mut [u32],
    bag: &mut Bag,
    hop: u32,
    tree: Tree,
)
    requires { Walkable (graph offsets.now targets.now) hop hops.old links.old bag.old
        × Apart hops.old links.old bag.old (tree_of tree.height links.old tree.root) × (tree.height < slot_count) }
    ensures { Grown hop (λ (w : ℕ). sum (leads_to (graph offsets.now targets.now) w)
        (tree_of tree.height links.old tree.root))
        hops.old links.old bag.old hops.new links.new bag.new }
{
    if tree.height == 0 {
        return;
    }
    let mut rights = [0u32; 16];
    let mut heights = [0u8; 16];
    let mut depth: usize = 0;
    let mut at = tree.root;
    let mut rest = tree.height;
    while rest != 0 {
        if rest != 1 {
            let left = links[2 * at as usize];
            let right = links[2 * at as usize + 1];
            rest -= 1;
            rights[depth] = right;
            heights[depth] = rest as u8;
            depth += 1;
            visit(offsets, targets, hops, links, bag, hop, at);
            at = left;
        } else {
            visit(offsets, targets, hops, links, bag, hop, at);
            if depth == 0 {
                return;
            }
            depth -= 1;
            at = rights[depth];
            rest = usize::from(heights[depth]);
        }
    }
}

// The same for all objects of a pennant.
pub fn fill(
    offsets: &[u32],
    targets: &[u32],
    hops: &mut [u32],
    links: &mut [u32],
    bag: &mut Bag,
    hop: u32,
    pennant: Tree,
)
    requires { Walkable (graph offsets.now targets.now) hop hops.old links.old bag.old
        × Apart hops.old links.old bag.old (pennant_of pennant.height links.old pennant.root) × (pennant.height < slot_count) }
    ensures { Grown hop (λ (w : ℕ). sum (leads_to (graph offsets.now targets.now) w)
        (pennant_of pennant.height links.old pennant.root))
        hops.old links.old bag.old hops.new links.new bag.new }
{
    let below = links[2 * pennant.root as usize];
    visit(offsets, targets, hops, links, bag, hop, pennant.root);
    let tree = Tree {
        height: pennant.height,
        root: below,
    };
    walk(offsets, targets, hops, links, bag, hop, tree);
}
