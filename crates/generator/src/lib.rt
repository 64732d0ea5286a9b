//! Generators of node values, and going down the tree by any of them.
#![tactic(auto)]

ghost use Rattle.std.specs.Prelude.{◌≡◌, ℕ, ◌+◌, ◌-◌, ◌<◌, ◌≤◌, Some, None, ◌++◌, length, drop};
ghost use Rattle.octets.specs.Buffers.{zeros};
ghost use Rattle.tree.specs.Nodes.{max_levels, Above};
ghost use Rattle.tree.specs.Values.{step_of, way, follow, besides};
ghost use Rattle.generator.specs.Bytes.{value_length};
ghost use Rattle.generator.specs.Meaning.{GeneratorMeaning, LawfulGenerator};
ghost use Rattle.generator.specs.Descent.{no_values, Descent, Kept};

use tree::{Gap, Node, ROW};

/// The bytes of a node's value.
pub const VALUE_SIZE: usize = 32;

/// A node's value, and a number's key.
pub type Value = [u8; VALUE_SIZE];

/// Makes the values of a node's two children from the node's own.
pub trait Generator {
    /// What it means: which left and right value it makes, and the number that a key file knows it by.
    ghost meaning: { Self → GeneratorMeaning };

    // A plain number, no enum and no `From`: a generator of another crate brings its own.
    /// Its number.
    fn number(&self) -> u8
        ensures { result ≡ (meaning self.now).number };

    // The three values stay apart here: one is read and two are written, which a struct of them would not say.
    /// Fills `left` and `right` with the children's values.
    fn expand(&self, value: &Value, left: &mut Value, right: &mut Value)
        ensures one { left.new ≡ (meaning self.now).expansion.left value.now }
        ensures two { right.new ≡ (meaning self.now).expansion.right value.now };

    ghost lawful: { (g : Self) → LawfulGenerator (meaning g) };
}

/// The values on the way down the tree: a node's, which becomes a number's key, and those of its two children.
#[derive(Drop)]
pub struct Values {
    pub value: Value,
    pub left: Value,
    pub right: Value,
}

impl Values {
    /// Three values of zeros.
    pub fn new() -> Values
        ensures { result ≡ no_values }
    {
        Values {
            value: [0; VALUE_SIZE],
            left: [0; VALUE_SIZE],
            right: [0; VALUE_SIZE],
        }
    }

    /// Puts zeros into all three.
    pub fn wipe(&mut self)
        ensures { self.new ≡ no_values }
    {
        *self = Values::new();
    }

    // How many levels the way from a node down to `n` has; where there is no such way, zeros go into all three.
    fn levels_to(&mut self, height: u8, node: &Node, n: u32) -> Option<u8>
        ensures { elim result [ Some k ↦ Above height node.now n × (k ≡ height - node.now.depth) × (self.new ≡ self.old) | None ↦ (Above height node.now n → ⊥) × (self.new ≡ no_values) ] }
    {
        let levels = node.levels_to(height, n);
        if levels.is_none() {
            self.wipe();
        }
        levels
    }

    // Puts zeros into the children's. That they are zeros is a clause of each function, and no invariant: between the turns they stand.
    fn wipe_children(&mut self)
        ensures value { self.new.value ≡ self.old.value }
        ensures left { self.new.left ≡ zeros value_length }
        ensures right { self.new.right ≡ zeros value_length }
    {
        self.left = [0; VALUE_SIZE];
        self.right = [0; VALUE_SIZE];
    }

    // Makes the children's values, and puts that of the child on the way in the place of its parent's. The generator is
    // called here and nowhere else, and each call is counted.
    fn turn<G: Generator>(&mut self, generator: &G, to_right: bool, calls: &mut u32)
        requires { calls.old < max_levels }
        ensures child { self.new.value ≡ step_of (G.meaning generator.now).expansion to_right self.old.value }
        ensures one { self.new.left ≡ (G.meaning generator.now).expansion.left self.old.value }
        ensures two { self.new.right ≡ (G.meaning generator.now).expansion.right self.old.value }
        ensures counted { calls.new ≡ calls.old + 1 }
    {
        generator.expand(&self.value, &mut self.left, &mut self.right);
        *calls += 1;
        if to_right {
            self.value = self.right;
        } else {
            self.value = self.left;
        }
    }
}

// What is read and what is changed stay apart here too: of a struct of them a contract would also say what stays.
/// Goes down from a node to the number `n` in a tree of `height` levels. `values` hold the node's value before and the key
/// of `n` after, and the answer is how many calls of the generator it took. Where the node is none of that tree or does not
/// cover `n` there is no answer, and the value is cleared. The children's values are scratch, zero afterwards.
pub fn descend<G: Generator>(
    generator: &G,
    height: u8,
    node: &Node,
    n: u32,
    values: &mut Values,
) -> Option<u32>
    ensures answer { Descent (G.meaning generator.now).expansion height node.now n values.old.value result values.new.value }
    ensures left { values.new.left ≡ zeros value_length }
    ensures right { values.new.right ≡ zeros value_length }
{
    let levels = values.levels_to(height, node, n)?;
    Some(go_down(generator, levels, n, values))
}

// Takes as many turns as `levels` says, by the low bits of `n`, the highest first, and answers the generator calls made.
// A loop over the bits' heights, no fold: of what a closure changes in the values its proof would know nothing.
#[tactic(auto, using(tree::proofs::Descent::key_step, tree::proofs::Descent::length_way))]
fn go_down<G: Generator>(generator: &G, levels: u8, n: u32, values: &mut Values) -> u32
    requires { levels ≤ max_levels }
    ensures key { values.new.value ≡ follow (G.meaning generator.now).expansion values.old.value (way levels 0 n) }
    ensures left { values.new.left ≡ zeros value_length }
    ensures right { values.new.right ≡ zeros value_length }
    ensures calls { result ≡ length (way levels 0 n) }
{
    let mut calls = 0;
    for h in (0..levels).rev() {
        values.turn(generator, (n >> h) % 2 == 1, &mut calls);
    }
    values.wipe_children();
    calls
}

/// Goes down as `descend` does, and keeps the values of the siblings that it passes, in the order of their first
/// numbers, from the start of the row; the rest of the row is zero. Without an answer all of it is.
#[tactic(auto, using(crate::proofs::Ends::row_kept))]
pub fn descend_keeping<G: Generator>(
    generator: &G,
    height: u8,
    node: &Node,
    n: u32,
    values: &mut Values,
    row: &mut [Value; ROW],
) -> Option<u32>
    ensures answer { Descent (G.meaning generator.now).expansion height node.now n values.old.value result values.new.value }
    ensures kept { Kept (G.meaning generator.now).expansion height node.now n values.old.value result row.new }
    ensures left { values.new.left ≡ zeros value_length }
    ensures right { values.new.right ≡ zeros value_length }
{
    *row = [[0; VALUE_SIZE]; ROW];
    let levels = values.levels_to(height, node, n)?;
    Some(keep_siblings(generator, levels, n, values, row))
}

// Goes down as `go_down` does and lays the siblings' values into the row: those on the left of the way from the front, and
// those on its right from the back. A loop as there, and apart from it: as one, `go_down` would be lent a row for values that
// nobody asks for.
#[tactic(auto, using(tree::proofs::Descent::length_way, tree::proofs::Descent::key_step, crate::proofs::Rows::besides_more))]
fn keep_siblings<G: Generator>(
    generator: &G,
    levels: u8,
    n: u32,
    values: &mut Values,
    row: &mut [Value; ROW],
) -> u32
    requires { levels ≤ max_levels }
    ensures key { values.new.value ≡ follow (G.meaning generator.now).expansion values.old.value (way levels 0 n) }
    ensures left { values.new.left ≡ zeros value_length }
    ensures right { values.new.right ≡ zeros value_length }
    ensures calls { result ≡ length (way levels 0 n) }
    ensures row { row.new ≡ besides (G.meaning generator.now).expansion levels n values.old.value ++ drop levels row.old }
{
    let mut calls = 0;
    let mut gap = Gap::new(usize::from(levels));
    for h in (0..levels).rev() {
        let to_right = (n >> h) % 2 == 1;
        values.turn(generator, to_right, &mut calls);
        if to_right {
            gap.fill_front(row, &values.left);
        } else {
            gap.fill_back(row, &values.right);
        }
    }
    values.wipe_children();
    calls
}
