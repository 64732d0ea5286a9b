//! The key tree: its nodes, the cover of the spent numbers, and the values.
#![tactic(auto)]

ghost use Rattle.std.specs.Prelude.{◌≡◌, ℕ, ◌+◌, ◌-◌, ◌^◌, ◌<◌, ◌≤◌, min, T, List, [], ◌∷◌, ◌++◌, length, take, slice_set, Some, None, nat_le};
ghost use Rattle.tree.specs.declared.Node.{Node};
ghost use Rattle.tree.specs.Gaps.{filled_in};
ghost use Rattle.tree.specs.Nodes.{tree_levels, max_levels, width_of, IsNode, is_node, Covers, Above, HasChildren, left_of, right_of, Twins};
ghost use Rattle.tree.specs.Cover.{Characterised, InOrder, Exactly, AtMostOne, Exhausted, Least, SameSet, Few};
ghost use Rattle.tree.specs.Puncture.{siblings_on, siblings_from, Listed, SiblingsAre, Punctured, PuncturedAt};
ghost use Rattle.tree.specs.Values.{ValuesAre, Composed, KeyFrom, Agreed, PuncturedValues, KeysOf};
ghost use Rattle.tree.specs.Examples.{Examples};

use std::marker::Model;

/// The levels below the root of the trees in use.
pub const LEVELS: u8 = 16;

/// The most levels that a tree may have here.
pub const MAX_LEVELS: u8 = 24;

/// The length of a row for the siblings on any way down.
pub const ROW: usize = MAX_LEVELS as usize;

/// A node: how deep below the root, and the first number that it covers.
#[derive(Clone, Copy, PartialEq, Eq)]
pub struct Node {
    pub depth: u8,
    pub first: u32,
}

/// The sizes in use are the definitions': the trees that servers keep have no more levels than any tree may have, and a row
/// has a place for each level of any tree, so that the siblings on every way down fit.
#[tactic(auto, using(crate::proofs::Flanks::length_siblings))]
pub fn sizes_stand()
    ensures levels { LEVELS ≡ tree_levels }
    ensures most { MAX_LEVELS ≡ max_levels }
    ensures within { LEVELS ≤ MAX_LEVELS }
    ensures row { (d n : ℕ) (x : Node) → d ≤ MAX_LEVELS → length (siblings_from d x n) ≤ ROW }
{}

/// Whether a tree of `levels` levels has so many numbers. Any number of levels will do.
#[tactic(auto, using(crate::proofs::Powers::whole_leb))]
pub fn has_numbers(levels: u8, count: u32) -> bool
    ensures { result ≡ nat_le count (2 ^ levels) }
{
    u64::from(count) <= power(levels)
}

/// Whether a tree of `levels` levels has a node of this depth that begins at this number. Any number of levels will do.
#[tactic(auto, using(crate::proofs::Powers::whole_ltb, crate::proofs::Powers::rest_is))]
pub fn has_node(levels: u8, depth: u8, first: u32) -> bool
    ensures { result ≡ is_node levels depth first }
{
    depth <= levels
        && u64::from(first) < power(levels)
        && u64::from(first) % power(levels - depth) == 0
}

// How many numbers a tree of `levels` levels has, but no more than 2^32: a number has 32 bits, and tells apart no greater powers.
#[tactic(auto, using(crate::proofs::Powers::shifted_least))]
fn power(levels: u8) -> u64
    ensures { result ≡ 2 ^ min levels 32 }
{
    1 << levels.min(32)
}

// Each method takes the number of levels of the tree that the node is to stand in. It stays a plain number: a type for
// at most 24 levels would have callers show that bound where now any number will do.
impl Node {
    /// How many numbers the node covers; 0 where the tree has no such depth.
    // 0 stays, no `Option`: it is the count of the numbers covered there, and callers add it to a first number as it is.
    pub fn width(&self, height: u8) -> u32
        ensures within { height ≤ max_levels → self.now.depth ≤ height → result ≡ width_of height self.now.depth }
        ensures without { (height ≤ max_levels → self.now.depth ≤ height → ⊥) → result ≡ 0 }
    {
        if height > MAX_LEVELS || self.depth > height {
            return 0;
        }
        1 << (height - self.depth)
    }

    /// Whether this is a node of the tree.
    #[tactic(auto, using(crate::proofs::Shapes::tested_node, crate::proofs::Shapes::node_tested))]
    pub fn is_node(&self, height: u8) -> bool
        ensures only { T result → (height ≤ max_levels) × IsNode height self.now }
        ensures all { height ≤ max_levels → IsNode height self.now → T result }
    {
        height <= MAX_LEVELS && has_node(height, self.depth, self.first)
    }

    /// Whether this is a node of the tree and covers `n`.
    pub fn covers(&self, height: u8, n: u32) -> bool
        ensures only { T result → (height ≤ max_levels) × IsNode height self.now × Covers height self.now n }
        ensures all { height ≤ max_levels → IsNode height self.now → Covers height self.now n → T result }
    {
        self.is_node(height) && self.first <= n && n - self.first < self.width(height)
    }

    /// How many levels the way from this node down to `n` has; none where this is no node of the tree or does not cover `n`.
    pub fn levels_to(&self, height: u8, n: u32) -> Option<u8>
        ensures { elim result [ Some k ↦ Above height self.now n × (k ≡ height - self.now.depth) | None ↦ (Above height self.now n → ⊥) ] }
    {
        if !self.covers(height, n) {
            return None;
        }
        Some(height - self.depth)
    }

    /// The left child, where this is a node of the tree and no leaf.
    pub fn left(&self, height: u8) -> Option<Node>
        ensures { elim result [ Some x ↦ HasChildren height self.now × (x ≡ left_of self.now) | None ↦ (HasChildren height self.now → ⊥) ] }
    {
        if self.depth >= height || !self.is_node(height) {
            return None;
        }
        Some(Node {
            depth: self.depth + 1,
            ..*self
        })
    }

    /// The right child, where this is a node of the tree and no leaf.
    #[tactic(auto, using(crate::proofs::Shapes::halved))]
    pub fn right(&self, height: u8) -> Option<Node>
        ensures { elim result [ Some x ↦ HasChildren height self.now × (x ≡ right_of height self.now) | None ↦ (HasChildren height self.now → ⊥) ] }
    {
        let left = self.left(height)?;
        Some(Node {
            first: self.first + self.width(height) / 2,
            ..left
        })
    }

    /// Whether this and `next` are the left and the right child of one node of the tree.
    pub fn has_sibling(&self, height: u8, next: &Node) -> bool
        ensures only { T result → (height ≤ max_levels) × Twins height self.now next.now }
        ensures all { height ≤ max_levels → Twins height self.now next.now → T result }
    {
        if self.depth == 0 || self.depth != next.depth {
            return false;
        }
        let parent = Node {
            depth: self.depth - 1,
            ..*self
        };
        parent.left(height) == Some(*self) && parent.right(height) == Some(*next)
    }

    /// Lists the siblings of the nodes on the way from this node down to `n`, one for each level; none where there is no
    /// such way.
    // Those on the left of the way go into the row from the front, and those on its right from the back. A loop over heights,
    // no chain: each turn changes the node reached.
    #[tactic(auto, using(crate::proofs::Sift::siblings_more, crate::proofs::Sift::two_halves, crate::proofs::Shapes::shifted))]
    pub fn siblings(&self, height: u8, n: u32) -> Option<SiblingList>
        ensures { Listed height self.now n result }
    {
        let count = usize::from(self.levels_to(height, n)?);
        let mut row = [Node { depth: 0, first: 0 }; ROW];
        let mut gap = Gap::new(count);
        let mut left = *self;
        for h in (0..count).rev() {
            left.depth += 1;
            let right = Node {
                first: left.first + (1 << h),
                ..left
            };
            if n < right.first {
                gap.fill_back(&mut row, &right);
            } else {
                gap.fill_front(&mut row, &left);
                left = right;
            }
        }
        Some(SiblingList { row, count })
    }
}

/// The places of a row that are still to fill, where it is filled from both ends.
// Two places, and no slice that shrinks: contracts tell of the row as a whole.
#[derive(Drop)]
pub struct Gap {
    pub start: usize,
    pub end: usize,
}

impl Gap {
    /// The first places of a row.
    pub fn new(size: usize) -> Gap
        ensures start { result.start ≡ 0 }
        ensures end { result.end ≡ size }
    {
        Gap {
            start: 0,
            end: size,
        }
    }

    /// Puts an item into the first of these places.
    pub fn fill_front<A: Copy>(&mut self, row: &mut [A], item: &A)
        requires open { self.old.start < self.old.end }
        requires within { self.old.end ≤ length row.old }
        ensures start { self.new.start ≡ self.old.start + 1 }
        ensures end { self.new.end ≡ self.old.end }
        ensures placed { row.new ≡ slice_set row.old self.old.start item.now }
        ensures filled { (xs : List A) → filled_in row.new self.new xs ≡ filled_in row.old self.old (item.now ∷ xs) }
    {
        row[self.start] = *item;
        self.start += 1;
    }

    /// Puts an item into the last of these places.
    pub fn fill_back<A: Copy>(&mut self, row: &mut [A], item: &A)
        requires open { self.old.start < self.old.end }
        requires within { self.old.end ≤ length row.old }
        ensures start { self.new.start ≡ self.old.start }
        ensures end { self.new.end + 1 ≡ self.old.end }
        ensures placed { row.new ≡ slice_set row.old self.new.end item.now }
        ensures filled { (xs : List A) → filled_in row.new self.new xs ≡ filled_in row.old self.old (xs ++ item.now ∷ []) }
    {
        self.end -= 1;
        row[self.end] = *item;
    }
}

/// The siblings on a way down, in increasing order.
// No vector of the toolchain's crate `arrayvec`: that one grows at its end, and this is filled from both.
#[derive(Drop)]
pub struct SiblingList {
    row: [Node; ROW],
    count: usize,
}

impl Model for SiblingList {
    ghost Value = { List Node };

    ghost view = { λ s. take s.count s.row };

    ghost invariant = { λ s. s.count ≤ max_levels };
}

impl SiblingList {
    /// The siblings.
    pub fn as_slice(&self) -> &[Node]
        ensures { result.now ≡ self.now }
    {
        &self.row[..self.count]
    }
}

/// The cover: its nodes, their order, what they cover, and that no fewer would do.
pub fn cover_stands()
    ensures characterised { Characterised }
    ensures order { InOrder }
    ensures exactly { Exactly }
    ensures once { AtMostOne }
    ensures exhausted { Exhausted }
    ensures least { Least }
    ensures set { SameSet }
    ensures few { Few }
{}

/// What spending one more number does to the cover.
pub fn puncture_stands()
    ensures siblings { SiblingsAre }
    ensures replaced { Punctured }
    ensures cut { PuncturedAt }
    ensures values { PuncturedValues }
{}

/// The values at the nodes, and which keys follow from the cover with its values.
pub fn values_stand()
    ensures law { ValuesAre }
    ensures composed { Composed }
    ensures key { KeyFrom }
    ensures agreed { Agreed }
    ensures keys { KeysOf }
{}

/// Widths and covers computed by the definitions.
pub fn examples_stand()
    ensures { Examples }
{}
