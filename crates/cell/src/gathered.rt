// The rules gathered for a call, one behind the other.
ghost use Rattle.std.specs.Prelude.{◌≡◌, ◌+◌, ◌<◌, ◌≤◌, List, [], ◌∷◌, ◌++◌, length, take};
ghost use Rattle.graph.specs.declared.numbered.Numbered.{Numbered};

use graph::numbered::Numbered;
use lengths::length::Length;
use lengths::stored::Stored;
use rules::rule::Rule;
use std::marker::Model;

// The most rules that can be in force: 255 boundary rules, 4,096 entered ones and 8,192 of a source.
const MOST_RULES: usize = 12_543;

// A call takes no memory of the heap, so the rules lie in an array with room for the most there can be. The library's vector of fixed room
// would ask of the lengths that they have a default.
#[derive(Drop)]
pub(crate) struct Gathered<L: Copy> {
    memory: [Numbered<L>; MOST_RULES],
    count: usize,
}

impl<L: Copy> Model for Gathered<L> {
    ghost Value = { List (Numbered L) };

    ghost view = { λ g. take g.count g.memory };

    ghost invariant = { λ g. g.count ≤ 12543 };
}

impl<L: Length + Stored> Gathered<L> {
    // No rules yet.
    pub(crate) fn new() -> Gathered<L>
        ensures { result ≡ [] }
    {
        let blank = Numbered {
            number: 0,
            rule: Rule::minimum(0, 0, L::zero()),
        };
        Gathered {
            memory: [blank; MOST_RULES],
            count: 0,
        }
    }
}

impl<L: Copy> Gathered<L> {
    // One rule more.
    pub(crate) fn push(&mut self, new: Numbered<L>)
        requires { length self.old < 12543 }
        ensures { self.new ≡ self.old ++ new ∷ [] }
    {
        self.memory[self.count] = new;
        self.count += 1;
    }

    // The rules so far.
    pub(crate) fn rules(&self) -> &[Numbered<L>]
        ensures is { result.now ≡ self.now }
        ensures few { length result.now ≤ 12543 }
    {
        &self.memory[..self.count]
    }
}
