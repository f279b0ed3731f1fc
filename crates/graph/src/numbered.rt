// A rule under the number by which answers name it.
use rules::rule::Rule;

#[derive(Clone, Copy, PartialEq, Eq, Debug)]
pub struct Numbered<L> {
    pub number: u32,
    pub rule: Rule<L>,
}
