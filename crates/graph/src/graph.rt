// The constraint graph: marks, and rules between them from which positions and distances can be sought.
ghost use Rattle.std.specs.Prelude.{◌≡◌, ◌≤◌, true, false, MatchResult};
ghost use Rattle.graph.specs.Ready.{all_fit, sound as is_sound};

use crate::numbered::Numbered;
use crate::unready::Unready;
use lengths::length::Length;

// From 1 to 256 marks, and at most 12,543 rules, each of which fits them.
#[derive(Drop)]
pub(crate) struct Graph<'r, L: Length> {
    pub(crate) marks: usize,
    pub(crate) rules: &'r [Numbered<L>],
    ghost sound: { is_sound L.kind marks rules.now ≡ true },
    ghost few: { marks ≤ 256 },
}

// Whether every rule fits so many marks.
fn all_fit<L: Length>(marks: usize, rules: &[Numbered<L>]) -> bool
    ensures { result ≡ all_fit L.kind marks rules.now }
{
    rules.iter().all(|listed| listed.rule.check(marks).is_ok())
}

// From 1 to 256 marks, at most 12,543 rules, and each of them fits.
fn sound<L: Length>(marks: usize, rules: &[Numbered<L>]) -> bool
    ensures { result ≡ is_sound L.kind marks rules.now }
{
    1 <= marks && marks <= 256 && rules.len() <= 12_543 && all_fit(marks, rules)
}

impl<'r, L: Length> Graph<'r, L> {
    // Refuses marks and rules that are not within their limits.
    pub(crate) fn new(marks: usize, rules: &'r [Numbered<L>]) -> Result<Graph<'r, L>, Unready>
        ensures { MatchResult result (λ graph. (graph.marks ≡ marks) × (graph.rules.now ≡ rules.now)) (λ _. is_sound L.kind marks rules.now ≡ false) }
    {
        if sound(marks, rules) {
            Ok(Graph { marks, rules })
        } else {
            Err(Unready)
        }
    }
}
