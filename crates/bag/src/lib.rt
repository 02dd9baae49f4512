// A bag of objects: at most one pennant in each of 17 slots, and how many objects there are; the objects' links are
// lent words. Adding an object goes like adding one to a binary number, and joining two bags like adding two.
#![tactic(auto)]

ghost use Rattle.std.specs.Prelude.{◌≡◌};
ghost use Rattle.bag.specs.Bag.{HasLinks, united, Addable, Adds, Joinable, Joins};
ghost use Rattle.bag.specs.Adder.{Unitable, Sums};

// How many slots a bag has.
pub const SLOTS: usize = 17;

// A bag: slot k has the root of a pennant of 2^k objects, or none.
// Stays (5): the links are lent words that all bags of a search share, so none of them holds them.
#[derive(Clone, Copy)]
pub struct Bag {
    pub slots: [Option<u32>; SLOTS],
    pub size: u32,
}

// Joins two pennants of one size: x stays the root, and y becomes its child.
fn unite(links: &mut [u32], x: u32, y: u32)
    requires { HasLinks links.old x × HasLinks links.old y }
    ensures { links.new ≡ united links.old x y }
{
    let left = 2 * x as usize;
    links[2 * y as usize + 1] = links[left];
    links[left] = y;
}

// What three slots add up to: what stays in the slot, and what goes to the next.
#[derive(Clone, Copy)]
struct Sum {
    here: Option<u32>,
    carry: Option<u32>,
}

// The full adder on slots of one size.
#[tactic(auto, unfolding(crate::specs::Adder::sum_of, crate::specs::Adder::carry_of, crate::specs::Adder::links_of))]
fn full_add(links: &mut [u32], x: Option<u32>, y: Option<u32>, z: Option<u32>) -> Sum
    requires { Unitable links.old x y z }
    ensures { Sums links.old x y z result.here result.carry links.new }
{
    match (x, y, z) {
        (Some(_), Some(b), Some(c)) => {
            unite(links, b, c);
            Sum { here: x, carry: y }
        }
        (Some(a), Some(b), None) | (Some(a), None, Some(b)) | (None, Some(a), Some(b)) => {
            unite(links, a, b);
            Sum {
                here: None,
                carry: Some(a),
            }
        }
        (here, None, None) | (None, here, None) | (None, None, here) => Sum { here, carry: None },
    }
}

impl Bag {
    // A bag without objects.
    pub const EMPTY: Bag = Bag {
        slots: [None; SLOTS],
        size: 0,
    };

    // Adds an object: a pennant of one object, which is united with those in its way.
    // Stays (3): `for slot in &mut self.slots`, tried, is unrolled and takes twice as long on a star, since slot k is nearly always a low one.
    pub fn add(&mut self, links: &mut [u32], x: u32)
        requires { Addable links.old self.old x }
        ensures { Adds links.old self.old x links.new self.new }
    {
        let mut root = x;
        let mut k: usize = 0;
        while let Some(other) = self.slots[k] {
            self.slots[k] = None;
            unite(links, other, root);
            root = other;
            k += 1;
        }
        self.slots[k] = Some(root);
        self.size += 1;
    }

    // Moves all objects of the other bag to this one, and leaves the other empty. Slots behind the last one of the other
    // bag are looked at only while there is a carry.
    pub fn join(&mut self, links: &mut [u32], other: &mut Bag)
        requires { Joinable links.old self.old other.old }
        ensures { Joins links.old self.old other.old links.new self.new other.new }
    {
        let mut carry = None;
        let mut rest = other.size;
        for (k, slot) in other.slots.iter().enumerate() {
            if rest == 0 && carry.is_none() {
                break;
            }
            let sum = full_add(links, self.slots[k], *slot, carry);
            self.slots[k] = sum.here;
            carry = sum.carry;
            rest /= 2;
        }
        self.size += other.size;
        *other = Bag::EMPTY;
    }
}
