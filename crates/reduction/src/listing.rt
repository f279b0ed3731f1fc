// Rules laid into a list one after another; those that have no room are only counted.
ghost use Rattle.std.specs.Prelude.{◌≡◌, ◌+◌, ◌≤◌, [], ◌∷◌};
ghost use Rattle.reduction.specs.Laying.{Lays};

use rules::rule::Rule;

// A list that rules are laid into, and how many have been laid. How many these may be is said where rules are laid: it only keeps the
// next count in range, and no one bound serves each step.
#[derive(Drop)]
pub(crate) struct Laying<'l, L> {
    pub(crate) list: &'l mut [Rule<L>],
    pub(crate) count: usize,
}

impl<L: Copy> Laying<'_, L> {
    // Lays one more rule.
    pub(crate) fn put(&mut self, rule: Rule<L>)
        requires { self.old.count ≤ 1_000_000 }
        ensures one { self.new.count ≡ self.old.count + 1 }
        ensures lays { Lays (rule ∷ []) self.old self.new }
    {
        // By index: of a write through `get_mut` a proof knows only the length.
        if self.count < self.list.len() {
            self.list[self.count] = rule;
        }
        self.count += 1;
    }
}
