// Breadth-first search by layers. A layer is a bag; each pennant of it fills a bag of its own with the
// objects found from there, and the bags are joined to the next layer.
#![tactic(auto)]

ghost use Rattle.std.specs.Prelude.{◌≡◌, ℕ, ◌<◌, true, length};
ghost use Rattle.laws.specs.Sum.{sum};
ghost use Rattle.bag.specs.Bag.{slot_count, IsBag, times, pennant_of, contents};
ghost use Rattle.graph.specs.Graph.{graph, all_below};
ghost use Rattle.layers.specs.Hops.{HopsOf, LinksLeft};
ghost use Rattle.layers.specs.Search.{leads_to, Growable, Grown, Walkable, Apart, Searchable};

use bag::Bag;
use traverse::{NONE, Tree};

// One pennant of a layer: the first bag that it fills is the next layer so far, and the bag of any
// other is joined to it.
fn spread(
    offsets: &[u32],
    targets: &[u32],
    hops: &mut [u32],
    links: &mut [u32],
    next: &mut Bag,
    hop: u32,
    pennant: Tree,
)
    requires { Walkable (graph offsets.now targets.now) hop hops.old links.old next.old
        × Apart hops.old links.old next.old (pennant_of pennant.height links.old pennant.root) × (pennant.height < slot_count) }
    ensures { Grown hop (λ (w : ℕ). sum (leads_to (graph offsets.now targets.now) w)
        (pennant_of pennant.height links.old pennant.root))
        hops.old links.old next.old hops.new links.new next.new }
{
    if next.size == 0 {
        traverse::fill(offsets, targets, hops, links, next, hop, pennant);
        return;
    }
    let mut own = Bag::EMPTY;
    traverse::fill(offsets, targets, hops, links, &mut own, hop, pennant);
    next.join(links, &mut own);
}

// A whole layer: fills the next one.
fn pass(
    offsets: &[u32],
    targets: &[u32],
    hops: &mut [u32],
    links: &mut [u32],
    layer: &Bag,
    next: &mut Bag,
    hop: u32,
)
    requires { Walkable (graph offsets.now targets.now) hop hops.old links.old next.old
        × Apart hops.old links.old next.old (contents links.old layer.now) × IsBag links.old layer.now }
    ensures { Grown hop (λ (w : ℕ). sum (leads_to (graph offsets.now targets.now) w) (contents links.old layer.now))
        hops.old links.old next.old hops.new links.new next.new }
{
    let mut rest = layer.size;
    for (height, slot) in layer.slots.iter().enumerate() {
        if rest == 0 {
            break;
        }
        if let Some(root) = *slot {
            spread(
                offsets,
                targets,
                hops,
                links,
                next,
                hop,
                Tree { height, root },
            );
        }
        rest /= 2;
    }
}

// Layer 0: the starts, each once.
fn begin(starts: &[u32], hops: &mut [u32], links: &mut [u32], bag: &mut Bag)
    requires { Growable 0 hops.old links.old bag.old × (all_below (length hops.old) starts.now ≡ true) }
    ensures { Grown 0 (λ (w : ℕ). times w starts.now) hops.old links.old bag.old
        hops.new links.new bag.new }
{
    for v in starts {
        traverse::find(hops, links, bag, 0, *v);
    }
}

// The hop counts: layer after layer, until one is empty. Two bags take turns, so that none is copied.
pub fn search(offsets: &[u32], targets: &[u32], starts: &[u32], hops: &mut [u32], links: &mut [u32])
    requires { Searchable (graph offsets.now targets.now) starts.now hops.old links.old }
    ensures { HopsOf (graph offsets.now targets.now) starts.now hops.new
        × LinksLeft hops.new links.old links.new }
{
    hops.fill(NONE);
    let mut layer = Bag::EMPTY;
    begin(starts, hops, links, &mut layer);
    let mut next = Bag::EMPTY;
    let mut hop: u32 = 0;
    while layer.size != 0 {
        hop += 1;
        pass(offsets, targets, hops, links, &layer, &mut next, hop);
        layer = Bag::EMPTY;
        if next.size == 0 {
            return;
        }
        hop += 1;
        pass(offsets, targets, hops, links, &next, &mut layer, hop);
        next = Bag::EMPTY;
    }
}
